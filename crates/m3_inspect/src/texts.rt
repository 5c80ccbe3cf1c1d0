//! The text of a view, line by line.
ghost use Rattle.std.specs.Prelude.{◌≡◌, ◌++◌, codes, decimal, map, OnOk, IfOk};
ghost use Rattle.std.specs.Fmt.{signed_decimal};
ghost use Rattle.std.specs.List.{flat_map};
ghost use Rattle.m3_image.specs.Views.{image_view};
ghost use Rattle.m3_inspect.specs.Shown.{shown_frame, shown_thread, shown_of};
ghost use Rattle.m3_inspect.specs.Texts.{value_text, name_of, var_line, vars_text, frame_text};
ghost use Rattle.m3_inspect.specs.Texts.{thread_text, text_of};

use crate::values::{FrameView, ThreadView, Value, VarValue, View};
use itoa::Buffer;
use m3_base::NoMemory;
use m3_image::ImageView;
use std::alloc::Global;

/// The text of a view: a line for each global, and for each thread a line, for each of its
/// activations a line, and a line for each variable in scope there. A variable past the image's has
/// no name.
pub fn text(alloc: Global, view: &View, image: &ImageView<'_>) -> Result<Vec<u8>, NoMemory>
    ensures { IfOk result (λ text. text.items ≡ text_of (image_view image.now)
        (shown_of view.now)) }
{
    let mut text = Vec::new(alloc);
    put_vars(&mut text, image, b"global ", &view.globals)?;
    put_threads(&mut text, image, &view.threads)?;
    Ok(text)
}

fn put(text: &mut Vec<u8>, part: &[u8]) -> Result<(), NoMemory>
    ensures { OnOk result (text.new.items ≡ text.old.items ++ part.now) }
{
    text.extend_from_slice(part)?;
    Ok(())
}

fn put_number(text: &mut Vec<u8>, n: u64) -> Result<(), NoMemory>
    ensures { OnOk result (text.new.items ≡ text.old.items ++ decimal n) }
{
    let mut buffer = Buffer::new();
    put(text, buffer.format(n).as_bytes())
}

fn put_integer(text: &mut Vec<u8>, n: i64) -> Result<(), NoMemory>
    ensures { OnOk result (text.new.items ≡ text.old.items ++ signed_decimal n) }
{
    let mut buffer = Buffer::new();
    put(text, buffer.format(n).as_bytes())
}

fn put_value(text: &mut Vec<u8>, value: Value) -> Result<(), NoMemory>
    ensures { OnOk result (text.new.items ≡ text.old.items ++ value_text value) }
{
    match value {
        Value::Number(n) => put_integer(text, n),
        Value::Nil => put(text, b"NIL"),
        Value::Cell(c) => {
            put(text, b"cell ")?;
            put_number(text, c)
        }
    }
}

fn name<'a>(image: &ImageView<'a>, number: u32) -> &'a [u8]
    ensures { result.now ≡ name_of (image_view image.now) number }
{
    match image.variable(number) {
        Some(variable) => variable.name,
        None => &[],
    }
}

/// The line of a variable behind what it begins with.
fn put_var(
    text: &mut Vec<u8>,
    image: &ImageView<'_>,
    begin: &[u8],
    var: &VarValue,
) -> Result<(), NoMemory>
    ensures { OnOk result (text.new.items ≡ text.old.items
        ++ var_line (image_view image.now) begin.now var.now) }
{
    put(text, begin)?;
    put(text, name(image, var.var))?;
    put(text, b" = ")?;
    put_value(text, var.value)?;
    put(text, b"\n")
}

fn put_vars(
    text: &mut Vec<u8>,
    image: &ImageView<'_>,
    begin: &[u8],
    vars: &[VarValue],
) -> Result<(), NoMemory>
    ensures { OnOk result (text.new.items ≡ text.old.items
        ++ vars_text (image_view image.now) begin.now vars.now) }
{
    'vars: for var in vars {
        put_var(text, image, begin, var)?;
    }
    Ok(())
}

fn put_frame(text: &mut Vec<u8>, image: &ImageView<'_>, frame: &FrameView) -> Result<(), NoMemory>
    ensures { OnOk result (text.new.items ≡ text.old.items
        ++ frame_text (image_view image.now) (shown_frame frame.now)) }
{
    put(text, b" proc ")?;
    put_number(text, u64::from(frame.proc))?;
    put(text, b"\n")?;
    put_vars(text, image, b"  ", &frame.vars)
}

#[tactic(auto, using(crate::proofs::ListLemmas::put_more))]
fn put_frames(
    text: &mut Vec<u8>,
    image: &ImageView<'_>,
    frames: &[FrameView],
) -> Result<(), NoMemory>
    ensures { OnOk result (text.new.items ≡ text.old.items
        ++ flat_map (frame_text (image_view image.now)) (map shown_frame frames.now)) }
{
    'frames: for frame in frames {
        put_frame(text, image, frame)?;
    }
    Ok(())
}

fn put_thread(
    text: &mut Vec<u8>,
    image: &ImageView<'_>,
    thread: &ThreadView,
) -> Result<(), NoMemory>
    ensures { OnOk result (text.new.items ≡ text.old.items
        ++ thread_text (image_view image.now) (shown_thread thread.now)) }
{
    put(text, b"thread ")?;
    put_number(text, thread.number)?;
    put(text, b"\n")?;
    put_frames(text, image, &thread.frames)
}

#[tactic(auto, using(crate::proofs::ListLemmas::put_more))]
fn put_threads(
    text: &mut Vec<u8>,
    image: &ImageView<'_>,
    threads: &[ThreadView],
) -> Result<(), NoMemory>
    ensures { OnOk result (text.new.items ≡ text.old.items
        ++ flat_map (thread_text (image_view image.now)) (map shown_thread threads.now)) }
{
    'threads: for thread in threads {
        put_thread(text, image, thread)?;
    }
    Ok(())
}
