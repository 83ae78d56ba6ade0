// Examples worked by hand, which the definitions of the other crates must give.
#![tactic(auto)]

ghost use Rattle.std.specs.Prelude.{◌≡◌, length};
ghost use Rattle.std.specs.List.{AllByRecursion};
ghost use Rattle.worked.specs.Worked.{Holds, examples};

// How many examples there are. Each of them holds.
pub fn examples_hold() -> usize
    ensures count { result ≡ length examples }
    ensures all { AllByRecursion Holds examples }
{
    15
}
