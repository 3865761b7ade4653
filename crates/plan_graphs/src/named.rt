//! Names of places that are kept.

use crate::plan::PlaceName;
use code_names::Names;
use scale_base::NoMemory;
use std::alloc::Global;

/// The name of an address. None where no symbol is at or below it.
pub fn name_of(alloc: Global, names: &Names<'_>, at: u32) -> Result<Option<PlaceName>, NoMemory> {
    match names.place(at) {
        None => Ok(None),
        Some(place) => {
            let symbol = String::from_str(alloc, place.name)?;
            Ok(Some(PlaceName {
                symbol,
                offset: place.offset,
            }))
        }
    }
}
