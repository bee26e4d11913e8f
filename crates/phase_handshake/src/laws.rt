//! Laws of handshakes. Each function has an empty body, and its contract is the law.

ghost use Rattle.std.specs.Prelude.{◌≡◌, ◌↔◌, ℕ, true, Some};
ghost use Rattle.phase_handshake.specs.declared.posts.Seat.{Seat};
ghost use Rattle.phase_handshake.specs.Handshakes.{AreClose, AreNeighbours, Handshakes, IsWaiting, is_open, seat_of};

/// No two live threads are more than one phase apart.
pub fn live_threads_are_one_phase_apart_at_most()
    ensures { (h : Handshakes) → AreClose h → (t u : ℕ) (s r : Seat) → seat_of h t ≡ Some s → seat_of h u ≡ Some r → AreNeighbours s.phase r.phase }
{}

/// The collector waits exactly while a post is open to some thread, so each thread that it waits for can acknowledge.
pub fn collector_waits_exactly_for_open_posts()
    ensures { (h : Handshakes) → IsWaiting h ↔ (t : ℕ) × (is_open h t ≡ true) }
{}
