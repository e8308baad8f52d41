use al_code::Code;
use al_front::{FrontFault, resolve};
use al_lower::{LowerFault, lower};
use std::alloc::{AllocError, Global};

/// The code of a source, or none where the source is refused.
pub fn lowered(alloc: Global, source: &str) -> Result<Option<Code>, AllocError> {
    match resolve(alloc, source.as_bytes()) {
        Ok((typed, infos)) => match lower(alloc, &typed, infos.as_slice()) {
            Ok(code) => Ok(Some(code)),
            Err(LowerFault::TooLarge) => Ok(None),
            Err(LowerFault::Memory) => Err(AllocError),
        },
        Err(FrontFault::Refused(_) | FrontFault::NoProgram(_)) => Ok(None),
        Err(FrontFault::Memory) => Err(AllocError),
    }
}
