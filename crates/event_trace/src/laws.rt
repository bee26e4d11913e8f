//! Laws of the definitions. Each function has an empty body; its contract is the law.

ghost use Rattle.event_trace.specs.Laws.{LinesHaveColumns, LinesComeBefore};

/// The line of an event is ten columns of printable ASCII, with a tab between two and a line feed after them, whatever the event, the
/// report and the states of the machine.
pub fn lines_have_columns()
    ensures { LinesHaveColumns }
{}

/// The first empty line ends a trace: what stands before it is the lines of the events, whatever the program printed after it.
pub fn lines_come_before_the_empty_line()
    ensures { LinesComeBefore }
{}
