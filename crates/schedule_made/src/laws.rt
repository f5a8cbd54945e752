//! What is known of a number's schedule before it is made.

ghost use Rattle.std.specs.Prelude.{◌≡◌, ℕ, ◌≤◌, length, Ok};
ghost use Rattle.schedule_text.specs.Encoding.{schedule_text, HasText};
ghost use Rattle.schedule_text.specs.Schedule.{schedule_at};
ghost use Rattle.schedule_made.specs.Made.{made_schedule};

/// A number's schedule of up to 100,000 events has this many of them, and a text, which is parsed as that schedule.
pub fn law_made()
    ensures count { (number events : ℕ) → events ≤ 100000 → length (made_schedule number events).events ≡ events }
    ensures text { (number events : ℕ) → events ≤ 100000 → HasText (made_schedule number events) }
    ensures again { (number events : ℕ) → events ≤ 100000
        → schedule_at (schedule_text (made_schedule number events)) ≡ Ok (made_schedule number events) }
{}
