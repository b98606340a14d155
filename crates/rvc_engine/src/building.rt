//! The image of a network that was checked.

ghost use Rattle.std.specs.Prelude.{◌≡◌, ℕ, List, IfErr, IfOk};
ghost use Rattle.fnl_files.specs.Views.{files_in};
ghost use Rattle.rvc_engine.specs.Built.{IsImageOf};
ghost use Rattle.network_check.specs.Checked.{HasSource};
ghost use Rattle.rvc_engine.specs.Images.{IsAnySource};
ghost use Rattle.network_check.specs.declared.fault.BuildFault.TheVariants as faults;

use crate::compiling::{codes_at, compile_all, uncertified_at};
use crate::image::Image;
use fnl_files::NetworkFiles;
use network_check::{BuildFault, Checked};
use rvc_base::Memory;
use std::alloc::Global;

/// The image of a network that was checked. There is one unless memory runs out.
pub(crate) fn image_of(
    alloc: Global,
    files: &NetworkFiles,
    checked: Checked,
) -> Result<Image, BuildFault>
    requires { IsAnySource (files_in files.now) checked }
    ensures image { (class : List ℕ) → HasSource (files_in files.now) class checked
        → IfOk result (IsImageOf (files_in files.now) class) }
    ensures flat { IfOk result (λ image. image.flat ≡ checked.flat) }
    ensures memory { IfErr result (λ fault. fault ≡ faults.Memory) }
{
    let all = match compile_all(alloc, &checked.actors.actors) {
        Ok(all) => all,
        Err(Memory) => return Err(BuildFault::Memory),
    };
    let Ok(codes) = codes_at(alloc, &checked.actors.of_leaf, &all) else {
        return Err(BuildFault::Memory);
    };
    let Ok(uncertified) = uncertified_at(alloc, &checked.actors.of_leaf, &all) else {
        return Err(BuildFault::Memory);
    };
    Ok(Image {
        flat: checked.flat,
        codes,
        uncertified,
    })
}
