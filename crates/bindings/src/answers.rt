// The refusals that name a place.
ghost use Rattle.std.specs.Prelude.{◌≡◌};
ghost use Rattle.word.specs.Numbers.{number_of};
ghost use Rattle.word.specs.Refusals.{refusal_answer};
ghost use Rattle.bindings.specs.Rules.{error_number};
ghost use Rattle.bindings.specs.Answers.{binding_answer};

use crate::types::{BindingError, ResourceBinding};
use word::refusal::{Number, Refusal};

// The refusal of a number that names a place.
pub fn binding_refusal(number: Number, bind: ResourceBinding) -> Refusal
    ensures { refusal_answer result ≡ binding_answer (number_of number) bind }
{
    Refusal::new(number, bind.group, bind.binding, 0)
}

// The numbers of the errors, in the table of refusals.
impl From<BindingError> for Number {
    ghost from_gives = { λ e n. number_of n ≡ error_number e };

    fn from(error: BindingError) -> Self {
        match error {
            BindingError::WrongType => Self::WrongType,
            BindingError::WrongAddressSpace => Self::WrongAddressSpace,
            BindingError::WrongBufferAddressSpace => Self::WrongBufferAddressSpace,
            BindingError::WrongBufferSize => Self::WrongBufferSize,
            BindingError::WrongTextureViewDimension => Self::WrongTextureViewDimension,
            BindingError::WrongTextureClass => Self::WrongTextureClass,
            BindingError::WrongSamplerComparison => Self::WrongSamplerComparison,
            BindingError::BadStorageFormat => Self::BadStorageFormat,
        }
    }
}
