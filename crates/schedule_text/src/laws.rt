//! Laws of the definitions. Each function has an empty body, and its contract is the law.
ghost use Rattle.std.specs.Prelude.{◌≡◌, ◌≢◌, ℕ, List};
ghost use Rattle.cil_model.specs.declared.events.Event.{Event};
ghost use Rattle.schedule_text.specs.Items.{words};
ghost use Rattle.schedule_text.specs.Readings.{AreRead, IsFirstFault};
ghost use Rattle.schedule_text.specs.Writings.{IsWritten};
ghost use Rattle.schedule_text.specs.declared.errors.ScheduleError.{ScheduleError};
ghost use Rattle.schedule_text.specs.declared.errors.ScheduleError.TheVariants.{OutOfMemory};

/// The text that a list is written as is read as that list.
pub fn written_text_is_read()
    ensures { (events : List Event) (text : List ℕ) → IsWritten events text → AreRead (words text) events }
{}

/// A list is written as one text.
pub fn one_text()
    ensures { (events : List Event) (text other : List ℕ) → IsWritten events text → IsWritten events other → text ≡ other }
{}

/// A text is read as one list, or it has one first fault, and not both; except for out of memory, which
/// is a fault that a good item may have.
pub fn one_answer()
    ensures one_list { (text : List ℕ) (events others : List Event) → AreRead (words text) events → AreRead (words text) others → events ≡ others }
    ensures one_fault { (text : List ℕ) (error other : ScheduleError) → IsFirstFault (words text) error → IsFirstFault (words text) other → error ≢ OutOfMemory → other ≢ OutOfMemory → error ≡ other }
    ensures not_both { (text : List ℕ) (events : List Event) (error : ScheduleError) → AreRead (words text) events → IsFirstFault (words text) error → error ≡ OutOfMemory }
{}
