// Which numbers are read.
ghost use Rattle.std.specs.Prelude.{◌≤◌};

// Which numbers a step reads: those from `low` to `high`. The two facts are shown once, where a constant is declared.
// `one_at_most`: a first digit below `low` is then 0, which begins no longer numeral. `nine_at_least`: no one digit is then above `high`, so each first digit but a 0 begins a number within the bounds.
#[derive(Clone, Copy)]
pub struct Bounds {
    pub low: u64,
    pub high: u64,
    pub ghost one_at_most: { low ≤ 1 },
    pub ghost nine_at_least: { 9 ≤ high },
}
