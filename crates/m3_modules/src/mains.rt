use m3_base::{Pos, Refusal, rules};
use m3_link_scopes::Linker;

/// The built-in interface Main, by its place in the units.
fn main_interface(linker: &Linker<'_>) -> Option<u32> {
    for (place, info) in linker.infos.iter().enumerate() {
        if info.is_built_in && info.name.text == b"Main".as_slice() {
            return u32::try_from(place).ok();
        }
    }
    None
}

/// The module that exports Main: refuses a second one (rule 27), and a program without one (rule
/// 26).
pub fn main_module(linker: &mut Linker<'_>) -> Option<u32> {
    match main_interface(linker) {
        Some(main) => exporter(linker, main),
        None => None,
    }
}

/// The first module that exports Main.
fn exporter(linker: &mut Linker<'_>, main: u32) -> Option<u32> {
    let mut found = None;
    for place in 0..linker.infos.len() {
        if exports_unit(linker, place, main) {
            found = first_main(linker, found, place);
        }
    }
    if found.is_none() {
        note_no_main(linker);
    }
    found
}

/// The module that exports Main, where one more does.
fn first_main(linker: &mut Linker<'_>, found: Option<u32>, place: usize) -> Option<u32> {
    match found {
        Some(_) => {
            note_second_main(linker, place);
            found
        }
        None => u32::try_from(place).ok(),
    }
}

fn note_no_main(linker: &mut Linker<'_>) {
    linker.least.note(Refusal {
        phase: 4,
        unit: 0,
        pos: Pos {
            file: 0,
            line: 1,
            col: 1,
        },
        rule: rules::NO_MAIN_MODULE,
    });
}

fn exports_unit(linker: &Linker<'_>, place: usize, interface: u32) -> bool {
    match linker.infos.get(place) {
        Some(info) => info.exports.contains(&interface),
        None => false,
    }
}

fn note_second_main(linker: &mut Linker<'_>, place: usize) {
    let pos = match linker.infos.get(place) {
        Some(info) => info.name.pos,
        None => return,
    };
    if let Ok(number) = u32::try_from(place) {
        linker.unit = number;
        linker.note(pos, rules::TWO_MAIN_MODULES);
    }
}
