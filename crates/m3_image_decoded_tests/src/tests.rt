use m3_base::NoMemory;
use m3_heap::Maps;
use m3_image::ImageView;
use m3_image_decoded::Decoded;
use std::alloc::Global;
use std::test::Fail;

/// Bytes that grow.
#[derive(Drop)]
struct Bytes {
    items: Vec<u8>,
}

impl Bytes {
    fn new(alloc: Global) -> Bytes {
        Bytes {
            items: Vec::new(alloc),
        }
    }

    fn word(&mut self, n: u32) -> Result<(), NoMemory> {
        self.items.extend_from_slice(&n.to_le_bytes())?;
        Ok(())
    }

    fn words(&mut self, ns: &[u32]) -> Result<(), NoMemory> {
        for n in ns {
            self.word(*n)?;
        }
        Ok(())
    }

    /// A section behind its length.
    fn section(&mut self, bytes: &Bytes) -> Result<(), NoMemory> {
        self.word((bytes.items.len() % 4294967296) as u32)?;
        self.items.extend_from_slice(&bytes.items)?;
        Ok(())
    }
}

/// The bytes of an image of POINT, ENDP, POINT, ENDP with these types and tables, where procedure 0
/// has a frame.
fn image(alloc: Global, frame: u32, types: &Bytes, tables: &Bytes) -> Result<Bytes, NoMemory> {
    let mut code = Bytes::new(alloc);
    code.words(&[47, 0, 50, 0, 47, 0, 50, 0])?;
    let mut procs = Bytes::new(alloc);
    procs.words(&[0, 2, 3, frame, 2, 2, 3, 7])?;
    let mut globals = Bytes::new(alloc);
    globals.words(&[4, 0])?;
    let mut none = Bytes::new(alloc);
    none.word(0)?;
    let mut places = Bytes::new(alloc);
    places.words(&[0, 0])?;
    let mut all = Bytes::new(alloc);
    all.items.extend_from_slice(b"M3IM")?;
    all.word(1)?;
    for section in [
        &code, &procs, types, &globals, &none, &places, &none, tables,
    ] {
        all.section(section)?;
    }
    Ok(all)
}

/// The text type, and the type of threads.
fn first_types(alloc: Global) -> Result<Bytes, NoMemory> {
    let mut types = Bytes::new(alloc);
    types.words(&[2, u32::MAX, 0, 0, 0, 0])?;
    types.words(&[0, u32::MAX, 4, 0, 0, 1, 3])?;
    Ok(types)
}

/// Two rows that say nothing.
fn empty_tables(alloc: Global) -> Result<Bytes, NoMemory> {
    let mut tables = Bytes::new(alloc);
    tables.words(&[2, 0, 0, 2, 17])?;
    for _ in 0..2 {
        tables.items.push(0)?;
        tables.words(&[0, 0, 0, 0])?;
    }
    Ok(tables)
}

#[test]
fn types_65535_in_a_chain(rt: HostRuntime) -> Result<(), Fail> {
    let mut types = first_types(rt.alloc())?;
    for parent in 1..65534 {
        types.words(&[0, parent, 4, 0, 0, 0])?;
    }
    let tables = empty_tables(rt.alloc())?;
    let bytes = image(rt.alloc(), 3, &types, &tables)?;
    let Ok(view) = ImageView::read(&bytes.items) else {
        panic!(rt; "an image");
    };
    let mut listed = 0u64;
    for shape in view.types() {
        listed = listed.wrapping_add(shape.words() as u64);
    }
    // 65,534 types of 4 words each; the text has 0.
    assert_eq!(rt; listed, 262136);
    let ready = Decoded::of(rt.alloc(), view)?;
    assert!(rt; ready.type_count() == 65535);
    let mut yes = 0u64;
    for t in 1..65535 {
        if ready.is_subtype(t, 1) && ready.is_subtype(t, t / 2 + 1) && !ready.is_subtype(t, 0) {
            yes = yes.wrapping_add(1);
        }
    }
    assert_eq!(rt; yes, 65534);
    assert!(rt; !ready.is_subtype(1, 2) && ready.is_subtype(0, 0) && !ready.is_subtype(0, 1));
    Ok(())
}

/// Whether a type is there, and is another or has it among its ancestors.
fn is_below(ready: &Decoded<'_>, t: u32, u: u32) -> bool {
    (t as usize) < ready.type_count() && ready.is_subtype(t, u)
}

#[test]
fn types_in_a_tree(rt: HostRuntime) -> Result<(), Fail> {
    // Type n from 2 on has the parent n / 2, and so 1 at the top.
    let mut types = first_types(rt.alloc())?;
    for n in 2..4096 {
        types.words(&[0, n / 2, 4, 0, 0, 0])?;
    }
    let tables = empty_tables(rt.alloc())?;
    let bytes = image(rt.alloc(), 3, &types, &tables)?;
    let Ok(view) = ImageView::read(&bytes.items) else {
        panic!(rt; "an image");
    };
    let ready = Decoded::of(rt.alloc(), view)?;
    assert!(rt; ready.type_count() == 4096);
    for (t, u, wanted) in [
        (4095, 1023, true),
        (4095, 511, true),
        (4095, 510, false),
        (4094, 2047, true),
        (4094, 1, true),
        (4094, 3, true),
        (4094, 2, false),
        (2048, 2, true),
        (2048, 1024, true),
        (2048, 1025, false),
        (1024, 2048, false),
    ] {
        assert_eq!(rt; is_below(&ready, t, u), wanted, "{t} below {u}");
    }
    Ok(())
}

#[test]
fn pointers_of_each_form(rt: HostRuntime) -> Result<(), Fail> {
    // Type 2 is fixed, of 200 words with the pointers 1, 63, 64 and 199. Type 3 is open in two
    // dimensions, of elements of 3 words with the pointers 0 and 2. Type 4 is open with elements of
    // no words.
    let mut types = first_types(rt.alloc())?;
    types.words(&[0, u32::MAX, 200, 0, 0, 4, 1, 63, 64, 199])?;
    types.words(&[1, u32::MAX, 3, 2, 0, 2, 0, 2])?;
    types.words(&[1, u32::MAX, 0, 1, 0, 0])?;
    let tables = empty_tables(rt.alloc())?;
    let bytes = image(rt.alloc(), 3, &types, &tables)?;
    let Ok(view) = ImageView::read(&bytes.items) else {
        panic!(rt; "an image");
    };
    let ready = Decoded::of(rt.alloc(), view)?;
    for (kind, at, wanted) in [
        (0, 2, false),
        (1, 3, true),
        (1, 2, false),
        (2, 0, false),
        (2, 1, true),
        (2, 62, false),
        (2, 63, true),
        (2, 64, true),
        (2, 65, false),
        (2, 198, false),
        (2, 199, true),
        (2, 200, false),
        (2, 18446744073709551615, false),
        (3, 0, false),
        (3, 1, false),
        (3, 2, false),
        (3, 3, true),
        (3, 4, false),
        (3, 5, true),
        (3, 6, true),
        (3, 3000000003, true),
        (3, 3000000004, false),
        (4, 2, false),
        (5, 1, false),
    ] {
        assert_eq!(rt; ready.is_pointer(kind, at), wanted, "type {kind} word {at}");
        assert_eq!(rt;
            view.is_pointer(kind, at),
            wanted,
            "type {kind} word {at} of the view"
        );
    }
    Ok(())
}

#[test]
fn a_row_of_100000_places(rt: HostRuntime) -> Result<(), Fail> {
    // Procedure 0 has 50,000 tidy slots, the even ones, and 50,000 arguments, the odd ones.
    let mut row = Bytes::new(rt.alloc());
    row.items.push(0)?;
    row.word(50000)?;
    for n in 0..50000 {
        row.word(16 + 2 * n)?;
    }
    row.word(50000)?;
    for n in 0..50000 {
        row.word(17 + 2 * n)?;
    }
    row.words(&[0, 0])?;
    let mut tables = Bytes::new(rt.alloc());
    tables.words(&[2, 0, 0, 2, 400017])?;
    tables.items.extend_from_slice(&row.items)?;
    tables.items.push(0)?;
    tables.words(&[0, 0, 0, 0])?;
    let types = first_types(rt.alloc())?;
    let bytes = image(rt.alloc(), 100000, &types, &tables)?;
    let Ok(view) = ImageView::read(&bytes.items) else {
        panic!(rt; "an image");
    };
    let ready = Decoded::of(rt.alloc(), view)?;
    let Some(row) = ready.row(0) else {
        panic!(rt; "a row");
    };
    let mut arguments = 0u64;
    for place in row.argument_places() {
        arguments = arguments.wrapping_add(place as u64);
    }
    // 17 + 19 + .. + 100015
    assert_eq!(rt; arguments, 2500800000);
    let Some(tidy) = ready.tidy_places(row.number()) else {
        panic!(rt; "tidy places");
    };
    let mut places = 0u64;
    for place in tidy {
        places = places.wrapping_add(*place as u64);
    }
    // 16 + 18 + .. + 100014
    assert_eq!(rt; places, 2500750000);
    assert!(rt; tidy.len() == 50000 && ready.tidy_places(2).is_none() && ready.row(1).is_none());
    Ok(())
}

#[test]
fn code_and_procedures(rt: HostRuntime) -> Result<(), Fail> {
    let types = first_types(rt.alloc())?;
    let tables = empty_tables(rt.alloc())?;
    let bytes = image(rt.alloc(), 3, &types, &tables)?;
    let Ok(view) = ImageView::read(&bytes.items) else {
        panic!(rt; "an image");
    };
    let ready = Decoded::of(rt.alloc(), view)?;
    assert_eq!(rt; ready.code().len(), 4);
    assert!(rt; ready.fetch(3).is_some() && ready.fetch(4).is_none());
    assert!(rt; ready.containing(4).is_none() && ready.proc(2).is_none());
    let (Some(home), Some(second)) = (ready.containing(3), ready.proc(1)) else {
        panic!(rt; "two procedures");
    };
    assert!(rt; home.first == 2 && home.frame == 7 && second.first == 2);
    assert!(rt; ready.shape(1).is_some_and(|t| t.words() == 4) && ready.shape(2).is_none());
    assert_eq!(rt; ready.image().version(), 1);
    Ok(())
}
