// How a call leaves its answer in numbers.

ghost use Rattle.std.specs.Prelude.{◌≡◌, ◌∷◌, Ok, IfOk, IfErr};
ghost use Rattle.rules.specs.Refusals.{number_of, ranged_numbers, found_numbers};
ghost use Rattle.tl.specs.Exports.{Ascending};

use rules::Refusal;

// Leaves the answer where the caller asks for it, or zeros if it is a refusal, and returns the refusal's number, or 0.
pub fn leave<O: Copy + Default>(answer: Result<O, Refusal>, out: &mut O) -> u32
    ensures ok { IfOk answer (λ value. (result ≡ 0) × (out.new ≡ value)) }
    ensures err { IfErr answer (λ why. (result ≡ number_of why) × O.is_default out.new) }
{
    match answer {
        Ok(value) => {
            *out = value;
            0
        }
        Err(why) => {
            *out = O::default();
            u32::from(why)
        }
    }
}

// How many handles a range has, the first and the last.
pub fn range_numbers(range: Option<(usize, usize)>) -> [usize; 3]
    requires { Ascending (Ok range) }
    ensures { (0 ∷ result) ≡ ranged_numbers (Ok range) }
{
    match range {
        Some((first, last)) => [last - (first - 1), first, last],
        None => [0; 3],
    }
}

// How many tags were found, and the handle.
pub fn tag_numbers(tag: Option<usize>) -> [usize; 2]
    ensures { (0 ∷ result) ≡ found_numbers (Ok tag) }
{
    match tag {
        Some(h) => [1, h],
        None => [0; 2],
    }
}
