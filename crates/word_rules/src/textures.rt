// Whether an entry serves a texture, by the words of both.
ghost use Rattle.std.specs.Prelude.{◌≡◌, ℕ, ◌<◌, ◌≤◌};
ghost use Rattle.word.specs.Choice.{pick};
ghost use Rattle.word.specs.Words.{bits};
ghost use Rattle.bindings.specs.Rules.{class_of, sampled_fits, storable, storage_fits, access_of, is_external, class_use, texture_use};
ghost use Rattle.bindings.specs.Format.{type_code, bit_set, dimension_at, sample_kind_at, sample_at, access_at, binding_type_of};
ghost use Rattle.bindings.specs.declared.types.BindingError.TheVariants as Error;
ghost use Rattle.bindings.specs.declared.types.ImageClass.TheVariants as Class;
ghost use Rattle.word_rules.specs.Inner.Textures.{class_at, stands};

use bindings::resource_words::storable;
use bindings::types::BindingError;

// Whether a texture stands in a view: arrayed textures are 2D or cube.
#[tactic(auto, unfolding(bindings::specs::Rules::view_fits, word::specs::Choice::yes))]
fn view_fits(w: u32, view: u32) -> bool
    ensures { result ≡ stands w view }
{
    match (w % 4, w / 4 % 2 == 1) {
        (0, false) => view == 0,
        (1, false) => view == 1,
        (1, true) => view == 2,
        (2, false) => 5 <= view,
        (3, false) => view == 3,
        (3, true) => view == 4,
        _ => false,
    }
}

// A texture in another view has the wrong view dimension.
fn view_use(w: u32, view: u32) -> Result<(), BindingError>
    ensures { result ≡ pick (stands w view) (Ok tt) (Err Error.WrongTextureViewDimension) }
{
    if view_fits(w, view) {
        return Ok(());
    }
    Err(BindingError::WrongTextureViewDimension)
}

// Whether a sampled texture is of the kind and multisampling of a sampled entry.
#[tactic(auto, unfolding(bindings::specs::Rules::sampled_fits, word::specs::Choice::yes))]
fn sampled_fits(w: u32, entry: u32) -> bool
    ensures { result ≡ sampled_fits (Class.Sampled (sample_kind_at (bits 5 4 w)) (bit_set 3 w)) (class_of (sample_at (bits 6 4 entry)) (bit_set 3 entry)) }
{
    if w / 8 % 2 != entry / 8 % 2 {
        return false;
    }
    let sample = entry / 16 % 8;
    match w / 16 % 4 {
        0 => sample < 2,
        1 => sample == 3,
        _ => 4 <= sample,
    }
}

// Whether a depth texture is of the multisampling of a depth entry.
#[tactic(auto, unfolding(bindings::specs::Rules::sampled_fits, word::specs::Choice::yes))]
fn depth_fits(w: u32, entry: u32) -> bool
    ensures { result ≡ sampled_fits (Class.Depth (bit_set 3 w)) (class_of (sample_at (bits 6 4 entry)) (bit_set 3 entry)) }
{
    entry / 16 % 8 == 2 && w / 8 % 2 == entry / 8 % 2
}

// Whether a storage texture is of the format and access of a storage entry: load and store serve store alone too.
#[tactic(auto, unfolding(bindings::specs::Rules::storage_fits))]
fn storage_fits(w: u32, entry: u32) -> bool
    ensures { result ≡ storage_fits (Class.Storage (bits 14 8 w) (bits 18 16 w)) (bits 14 8 entry) (access_of (access_at (bits 17 16 entry))) }
{
    if w / 256 % 128 != entry / 256 % 128 {
        return false;
    }
    let access = w / 0x1_0000 % 8;
    match entry / 0x1_0000 % 4 {
        0 => access == 1,
        1 => access == 2,
        2 => access == 3 || access == 2,
        _ => access == 7,
    }
}

fn class_use(fits: bool) -> Result<(), BindingError>
    ensures { result ≡ class_use fits }
{
    if fits {
        return Ok(());
    }
    Err(BindingError::WrongTextureClass)
}

// Whether a texture is of the class of a sampled entry.
#[tactic(auto, unfolding(bindings::specs::Rules::sampled_fits))]
fn sampled_use(w: u32, entry: u32) -> Result<(), BindingError>
    ensures { result ≡ class_use (sampled_fits (class_at w) (class_of (sample_at (bits 6 4 entry)) (bit_set 3 entry))) }
{
    match w / 0x80_0000 % 16 {
        2 => class_use(sampled_fits(w, entry)),
        3 => class_use(depth_fits(w, entry)),
        _ => Err(BindingError::WrongTextureClass),
    }
}

// Whether a texture is of the class of a storage entry, whose format must be storable.
#[tactic(auto, unfolding(bindings::specs::Rules::storage_fits))]
fn storage_use(w: u32, entry: u32) -> Result<(), BindingError>
    ensures { result ≡ pick (storable (bits 14 8 entry))
        (class_use (storage_fits (class_at w) (bits 14 8 entry) (access_of (access_at (bits 17 16 entry)))))
        (Err Error.BadStorageFormat) }
{
    if !storable(entry / 256 % 128) {
        return Err(BindingError::BadStorageFormat);
    }
    class_use(w / 0x80_0000 % 16 == 4 && storage_fits(w, entry))
}

// The external entry serves external textures alone.
fn external_use(w: u32) -> Result<(), BindingError>
    requires { (2 ≤ type_code w) × (type_code w < 6) }
    ensures { result ≡ class_use (is_external (class_at w)) }
{
    class_use(w / 0x80_0000 % 16 == 5)
}

// Whether an entry serves a texture: the external entry is 2D, and one that is no texture has the wrong view dimension.
#[tactic(auto, unfolding(bindings::specs::Rules::texture_use, bindings::specs::Format::binding_type_of))]
pub(crate) fn texture_use(w: u32, entry: u32) -> Result<(), BindingError>
    requires { (2 ≤ type_code w) × (type_code w < 6) }
    ensures { (least : ℕ) → texture_use (dimension_at (bits 1 0 w)) (bit_set 2 w) (class_at w) (binding_type_of entry least) ≡ result }
{
    match entry / 0x80_0000 % 16 {
        2 => {
            view_use(w, entry % 8)?;
            sampled_use(w, entry)
        }
        4 => {
            view_use(w, entry % 8)?;
            storage_use(w, entry)
        }
        5 => {
            view_use(w, 1)?;
            external_use(w)
        }
        _ => Err(BindingError::WrongTextureViewDimension),
    }
}
