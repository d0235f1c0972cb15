ghost use Rattle.std.specs.Prelude.{◌<◌, ◌^◌, length};
ghost use Rattle.pruelf.specs.Executable as exec;
ghost use Rattle.pruelf.specs.Fields.{Gives};

use crate::executable::executable;
use crate::fault::LoadFault;
use isa::Image;
use std::alloc::Global;

/// The image that an executable holds. A fault is the first one, in the order header, program headers, section headers, the
/// other parts as they stand in the file, and what stands behind the section headers.
pub fn load(alloc: Global, bytes: &[u8]) -> Result<Image, LoadFault>
    requires { length bytes.now < 2 ^ 31 }
    ensures exact { Gives (λ i. i) result (exec.image_in bytes.now) }
{
    let parts = executable(alloc, bytes)?;
    let init = Vec::from_slice(alloc, parts.init)?;
    Ok(Image::new(parts.words, parts.data_at, init, parts.zero, parts.notes))
}
