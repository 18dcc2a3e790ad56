// Refusals as a caller meets them: by their numbers.
ghost use Rattle.std.specs.Prelude.{◌≡◌};
ghost use Rattle.downskillet_c.specs.Refusals.{number_told, total_told};

use model::Refusal;

// The number of an outcome.
pub(crate) fn number<X: Drop>(outcome: Result<X, Refusal>) -> u32
    ensures { result ≡ number_told outcome }
{
    outcome.map_or_else(|refusal| refusal.number().into(), |_| 0)
}

// The number of an outcome; where it is a total, that is written, and else nothing.
pub(crate) fn tell(outcome: Result<u64, Refusal>, total: &mut u64) -> u32
    ensures number { result ≡ number_told outcome }
    ensures total { total.new ≡ total_told outcome total.old }
{
    if let Ok(sum) = outcome {
        *total = sum;
    }
    number(outcome)
}
