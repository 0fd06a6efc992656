// The numbers of the verdicts in 01 ("Messages").
ghost use Rattle.std.specs.Prelude.{◌≡◌};
ghost use Rattle.place.specs.Verdict.{verdict_number};

use place::Verdict;

pub fn verdict_number(verdict: Verdict) -> u8
    ensures { result ≡ verdict_number verdict }
{
    verdict as u8
}
