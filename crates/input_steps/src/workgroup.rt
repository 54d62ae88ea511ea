// The size of a workgroup against the limits of its stage.
ghost use Rattle.std.specs.Prelude.{◌≡◌, ◌||◌, ◌*◌, ltb, eqb, length};
ghost use Rattle.word.specs.Refusals.{answer_of};
ghost use Rattle.input_steps.specs.Workgroup.{size_of, workgroup_use, workgroup_step};

use interface::types::{Limits, ShaderStage, WorkgroupSize};
use word::refusal::{Number, Refusal};

// The three dimensions that are judged, and the limit on their product.
#[derive(Clone, Copy)]
pub struct WorkgroupSizeCheck<'a> {
    pub dimensions: &'a [u32],
    pub total_limit: u32,
}

// Whether the whole product is above the total: where two factors are already, a third that is not zero keeps it there.
pub(crate) fn product_over(x: u32, y: u32, z: u32, total: u32) -> bool
    ensures { result ≡ ltb total (x * y * z) }
{
    if z == 0 {
        return false;
    }
    let xy = (x as u64) * (y as u64);
    if (total as u64) < xy {
        return true;
    }
    (total as u64) < xy * (z as u64)
}

// Whether a dimension or the product is above its limit.
fn too_large(size: WorkgroupSize, most: WorkgroupSize, total: u32) -> bool
    ensures { result ≡ (ltb most.x size.x || (ltb most.y size.y || (ltb most.z size.z || ltb total (size.x * size.y * size.z)))) }
{
    most.x < size.x
        || most.y < size.y
        || most.z < size.z
        || product_over(size.x, size.y, size.z, total)
}

// Whether the whole product is zero.
fn product_zero(size: WorkgroupSize) -> bool
    ensures { result ≡ eqb (size.x * size.y * size.z) 0 }
{
    size.x == 0 || size.y == 0 || size.z == 0
}

// Three dimensions against the most of each and of their product: 40 where one is too large, then 41 where one is zero.
#[tactic(auto, unfolding(crate::specs::Workgroup::workgroup_use))]
fn dimensions_use(dimensions: &[u32], most: WorkgroupSize, total: u32) -> Result<(), Refusal>
    requires { length dimensions.now ≡ 3 }
    ensures { answer_of result ≡ workgroup_use (size_of dimensions.now) most.x most.y most.z total }
{
    let size = WorkgroupSize {
        x: dimensions[0],
        y: dimensions[1],
        z: dimensions[2],
    };
    if too_large(size, most, total) {
        return Err(Refusal::new(Number::WorkgroupTooLarge, size.x, size.y, size.z));
    }
    if product_zero(size) {
        return Err(Refusal::new(Number::WorkgroupZero, size.x, size.y, size.z));
    }
    Ok(())
}

// The check taken apart: the project asks for one that keeps a reference to the dimensions it judges.
fn check_size<'a>(check: WorkgroupSizeCheck<'a>, most: WorkgroupSize) -> Result<(), Refusal>
    requires { length check.dimensions.now ≡ 3 }
    ensures { answer_of result ≡ workgroup_use (size_of check.entry.dimensions.now) most.x most.y most.z check.entry.total_limit }
{
    dimensions_use(check.dimensions, most, check.total_limit)
}

// The check of three dimensions.
fn check_dimensions(
    dimensions: &[u32],
    most: WorkgroupSize,
    total_limit: u32,
) -> Result<(), Refusal>
    requires { length dimensions.now ≡ 3 }
    ensures { answer_of result ≡ workgroup_use (size_of dimensions.now) most.x most.y most.z total_limit }
{
    check_size(
        WorkgroupSizeCheck {
            dimensions,
            total_limit,
        },
        most,
    )
}

// The size of a workgroup against the most of each dimension and of their product.
pub(crate) fn workgroup_use(
    size: WorkgroupSize,
    most: WorkgroupSize,
    total: u32,
) -> Result<(), Refusal>
    ensures { answer_of result ≡ workgroup_use size most.x most.y most.z total }
{
    let dimensions = [size.x, size.y, size.z];
    check_dimensions(&dimensions, most, total)
}

// The workgroup of a compute, task or mesh stage.
#[tactic(auto, unfolding(crate::specs::Workgroup::workgroup_step))]
pub fn workgroup_step(
    stage: ShaderStage,
    size: WorkgroupSize,
    limits: Limits,
) -> Result<(), Refusal>
    ensures { answer_of result ≡ workgroup_step stage size limits }
{
    match stage {
        ShaderStage::Vertex | ShaderStage::Fragment => Ok(()),
        ShaderStage::Compute => {
            let most = WorkgroupSize {
                x: limits.max_compute_workgroup_size_x,
                y: limits.max_compute_workgroup_size_y,
                z: limits.max_compute_workgroup_size_z,
            };
            workgroup_use(size, most, limits.max_compute_invocations_per_workgroup)
        }
        ShaderStage::Task => {
            let most = alike(limits.max_task_invocations_per_dimension);
            workgroup_use(size, most, limits.max_task_invocations_per_workgroup)
        }
        ShaderStage::Mesh => {
            let most = alike(limits.max_mesh_invocations_per_dimension);
            workgroup_use(size, most, limits.max_mesh_invocations_per_workgroup)
        }
    }
}

// The same limit on each dimension.
fn alike(most: u32) -> WorkgroupSize
    ensures { (result.x ≡ most) × (result.y ≡ most) × (result.z ≡ most) }
{
    WorkgroupSize {
        x: most,
        y: most,
        z: most,
    }
}
