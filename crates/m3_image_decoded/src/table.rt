//! The types of an image in a list.
ghost use Rattle.std.specs.Prelude.{◌≡◌, map, IfOk};
ghost use Rattle.m3_image.specs.Views.{image_view};
ghost use Rattle.m3_image_decoded.specs.ReadyTypes.{ready_type};

use crate::types::ReadyType;
use m3_base::NoMemory;
use m3_image::ImageView;
use std::alloc::Global;

/// The types of an image.
pub(crate) fn ready_types<'a>(
    alloc: Global,
    image: &ImageView<'a>,
) -> Result<Vec<ReadyType<'a>>, NoMemory>
    ensures { IfOk result (λ v. map ready_type v.items ≡ (image_view image.now).program.types) }
{
    image.keeps_its_form();
    let mut found = Vec::new(alloc);
    for view in image.types() {
        found.push(ReadyType::of(view))?;
    }
    Ok(found)
}
