/// What stands around the text of a case and around the tree that is expected of it, which begins
/// with a space. The text has its own lines from line 2 on, unless it is the whole file.
#[derive(Clone, Copy)]
pub struct Frame {
    pub before: &'static str,
    pub after: &'static str,
    pub tree_before: &'static str,
    pub tree_after: &'static str,
    pub has_places: bool,
}

/// A text that is the whole file.
pub const WHOLE: Frame = Frame {
    before: "",
    after: "",
    tree_before: "",
    tree_after: "",
    has_places: false,
};

static FRAMES: [(&str, Frame); 11] = [
    ("unit", WHOLE),
    (
        "interface",
        Frame {
            before: "INTERFACE M;\n",
            after: "\nEND M.",
            tree_before: " (INTERFACE M",
            tree_after: " END M)",
            has_places: false,
        },
    ),
    (
        "declarations",
        Frame {
            before: "MODULE M;\n",
            after: "\nBEGIN END M.",
            tree_before: " (MODULE M (block",
            tree_after: " BEGIN) END M)",
            has_places: false,
        },
    ),
    (
        "type",
        Frame {
            before: "MODULE M; TYPE T =\n",
            after: "\n; BEGIN END M.",
            tree_before: " (MODULE M (block (TYPE (T =",
            tree_after: ")) BEGIN) END M)",
            has_places: false,
        },
    ),
    (
        "statements",
        Frame {
            before: "MODULE M; BEGIN\n",
            after: "\nEND M.",
            tree_before: " (MODULE M (block BEGIN",
            tree_after: ") END M)",
            has_places: false,
        },
    ),
    (
        "expression",
        Frame {
            before: "MODULE M; BEGIN EVAL\n",
            after: "\nEND M.",
            tree_before: " (MODULE M (block BEGIN (EVAL",
            tree_after: ")) END M)",
            has_places: false,
        },
    ),
    // The frames of trees with places, for texts of one line.
    (
        "placed unit",
        Frame {
            before: "",
            after: "",
            tree_before: "",
            tree_after: "",
            has_places: true,
        },
    ),
    (
        "placed declarations",
        Frame {
            before: "MODULE M;\n",
            after: "\nBEGIN END M.",
            tree_before: " (MODULE@1:1 M@1:8 (block@2:1",
            tree_after: " BEGIN END@3:7) END M@3:11)",
            has_places: true,
        },
    ),
    (
        "placed type",
        Frame {
            before: "MODULE M; TYPE T =\n",
            after: "\n; BEGIN END M.",
            tree_before: " (MODULE@1:1 M@1:8 (block@1:11 (TYPE@1:11 (T@1:16 =",
            tree_after: ")) BEGIN END@3:9) END M@3:13)",
            has_places: true,
        },
    ),
    (
        "placed statements",
        Frame {
            before: "MODULE M; BEGIN\n",
            after: "\nEND M.",
            tree_before: " (MODULE@1:1 M@1:8 (block@1:11 BEGIN",
            tree_after: " END@3:1) END M@3:5)",
            has_places: true,
        },
    ),
    (
        "placed expression",
        Frame {
            before: "MODULE M; BEGIN EVAL\n",
            after: "\nEND M.",
            tree_before: " (MODULE@1:1 M@1:8 (block@1:11 BEGIN (EVAL@1:17",
            tree_after: ") END@3:1) END M@3:5)",
            has_places: true,
        },
    ),
];

/// The frame of a name.
pub fn frame_of(name: &str) -> Option<Frame> {
    for (known, frame) in &FRAMES {
        if *known == name {
            return Some(*frame);
        }
    }
    None
}
