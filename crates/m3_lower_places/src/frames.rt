use m3_lower_state::{Builder, Pending};
use m3_lower_storage::VarPlace;
use m3_mid::{MemoryWord, MidOp};

/// Puts the address of the frame of the activation at a level around the own one into a temporary.
pub fn frame_of<'m>(
    b: &mut Builder<'m, '_>,
    level: u32,
    to: u32,
    rest: Pending<'m>,
) -> Pending<'m> {
    if level >= b.level {
        return rest.after(MidOp::FrameAddress { to });
    }
    let mut code = rest;
    for _ in level.saturating_add(1)..b.level {
        code = code.after(MidOp::Load {
            to,
            from: MemoryWord::At {
                base: to,
                offset: 2,
            },
        });
    }
    code.after(MidOp::Load {
        to,
        from: MemoryWord::Environment,
    })
}

/// The word of an outer procedure's frame in which a variable begins.
pub fn outer_word(b: &Builder, owner: u32, variable: u32) -> i64 {
    match b.storage.place(owner, variable) {
        VarPlace::Slots(first) => i64::from(first).wrapping_add(3),
        VarPlace::Temps(_) => 0,
    }
}

/// The frame of the activation around an inner procedure.
pub fn environment_of<'m>(
    b: &mut Builder<'m, '_>,
    procedure: u32,
    to: u32,
    rest: Pending<'m>,
) -> Pending<'m> {
    let level = b.storage.level(procedure).saturating_sub(1);
    frame_of(b, level, to, rest)
}
