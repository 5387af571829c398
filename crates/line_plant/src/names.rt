ghost use Rattle.std.specs.Prelude.{◌≡◌, IfOk};
ghost use Rattle.line_plant.specs.Lines.{object_names};

use caa_base::written::entry::OutOfMemory;
use caa_base::written::name::Name;
use place_plan::plans::plan::Plan;
use std::alloc::Global;

/// The names of the objects of a plan, in the order of their numbers.
pub fn object_names(alloc: Global, plan: &Plan) -> Result<Vec<Name>, OutOfMemory>
    ensures { IfOk result (λ names. names.items ≡ object_names plan.now) }
{
    let mut names = Vec::new(alloc);
    for object in 0..plan.objects() {
        names.push(Name::from_bytes(alloc, plan.object_name(object))?)?;
    }
    Ok(names)
}
