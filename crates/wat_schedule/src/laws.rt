//! Laws of schedules.
ghost use Rattle.std.specs.Prelude.{◌≡◌, ◌<◌, ◌^◌, ℕ, List};
ghost use Rattle.wat_schedule.specs.declared.item.Item.{Item};
ghost use Rattle.wat_schedule.specs.Schedule.{IsSchedule};
ghost use Rattle.wat_schedule.specs.Worked.{TwoCases, OtherCases, NumberCases, MarkCases};

/// A text is the schedule of one list of items at most.
pub fn one_reading_law()
    ensures { (count : ℕ) (text : List ℕ) (xs ys : List Item) → count < 2 ^ 64 → IsSchedule count text xs → IsSchedule count text ys → xs ≡ ys }
{}

/// Texts that are schedules and texts that are none. The function does nothing: it states the cases.
pub fn worked_cases()
    ensures two { TwoCases }
    ensures others { OtherCases }
    ensures numbers { NumberCases }
    ensures marks { MarkCases }
{}
