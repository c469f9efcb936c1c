//! What gives units to workers.

ghost use Rattle.std.specs.Prelude.{◌≡◌, ◌*◌, ◌<◌, ◌≤◌, ℕ, IfSome, None};

/// Gives workers the units that they renew, one after another.
pub trait Desk {
    /// What a worker draws with.
    type Seat;

    /// How many units there are.
    ghost units: { Self → ℕ };

    /// It is a seat of this desk.
    ghost is_seat: { Self → Self.Seat → Type 0 };

    /// Why the seat was given none, each desk's own reason.
    ghost ended: { Self → Self.Seat → Type 0 };

    /// How many units the seat is given at most from now on.
    ghost left: { Self → Self.Seat → ℕ };

    /// The next unit, or none.
    fn next(&self, seat: &mut Self::Seat) -> Option<u32>
        requires { is_seat self.now seat.old }
        ensures seat { is_seat self.now seat.new }
        ensures bound { left self.now seat.old ≤ 32 * units self.now }
        ensures unit { IfSome result (λ unit. (unit < units self.now) × (left self.now seat.new < left self.now seat.old)) }
        ensures none { result ≡ None → ended self.now seat.new };

    /// Whether the unit is worth a renewal from versions with this mark, which is greater where there are newer ones: not where
    /// somebody claimed it with as great a mark before. Whatever it answers, a unit may be renewed or left alone.
    fn claim(&self, unit: u32, mark: u64) -> bool
        requires { unit < units self.now }
    {
        let _ = (unit, mark);
        true
    }

    /// Says that this unit may be worth a renewal.
    fn tell(&self, seat: &mut Self::Seat, unit: u32)
        requires seat { is_seat self.now seat.old }
        requires unit { unit < units self.now }
        ensures seat { is_seat self.now seat.new }
        ensures left { left self.now seat.new ≡ left self.now seat.old }
        ensures ended { ended self.now seat.old → ended self.now seat.new };
}
