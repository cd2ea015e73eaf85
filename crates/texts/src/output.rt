// A text laid into memory that the caller lends.
ghost use Rattle.std.specs.Prelude.{◌≡◌, length};
ghost use Rattle.lists.specs.Held.{held};
ghost use Rattle.texts.specs.Numbers.{output_number};
ghost use Rattle.texts.specs.Outputs.{fitted, laid};

use lists::BoundedVec;

// Why an output is refused: the text does not fit.
#[derive(Clone, Copy)]
pub enum OutputFault {
    TooShort = 71,
}

impl OutputFault {
    pub fn number(&self) -> u8
        ensures { result ≡ output_number self.now }
    {
        *self as u8
    }
}

// Lays a text into the front of out and answers its length. Bytes beyond it stay; where it does not fit, all stay.
pub fn lay<const N: usize>(text: &BoundedVec<u8, N>, out: &mut [u8]) -> Result<usize, OutputFault>
    ensures said { result ≡ fitted (length (held text.now)) (length out.old) }
    ensures left { out.new ≡ laid (held text.now) out.old }
{
    let n = text.len();
    if n > out.len() {
        return Err(OutputFault::TooShort);
    }
    out[..n].copy_from_slice(text.as_slice());
    Ok(n)
}
