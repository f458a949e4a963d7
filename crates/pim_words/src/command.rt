//! What the words of a command come to.

/// The kind of machine that a program is made for.
#[derive(Clone, Copy, Debug, PartialEq, Eq)]
pub enum TargetWord {
    /// `magic`: NOR gates that are executed in a row of memristors.
    Magic,
    /// `plim`: majorities of three that are executed in a row of memristors.
    Plim,
}

/// How much is done to make a program shorter.
#[derive(Clone, Copy, Debug, PartialEq, Eq)]
pub enum LevelWord {
    /// `--level 0`: nothing, the netlist is taken as it is.
    Zero,
    /// `--level 1`: the netlist is tidied, and for PLiM its gates become majorities.
    One,
    /// `--level 2`: the majorities are rewritten besides.
    Two,
}

/// What each cell of a row holds before a program runs in it.
#[derive(Clone, Copy, Debug, PartialEq, Eq)]
pub enum FillWord {
    /// Zero in each cell.
    Zeros,
    /// One in each cell.
    Ones,
}

/// The form that a program is written in.
#[derive(Clone, Copy, Debug, PartialEq, Eq)]
pub enum FormWord {
    /// `--form 1`: lines of text.
    Text,
    /// `--form 2`: binary.
    Binary,
}

/// A command with its options. The file of a program is none of these:
/// [`program_word`](crate::program_word) gives its name.
#[derive(Clone, Copy, Debug, PartialEq, Eq)]
pub enum Command {
    /// `compile`: a netlist becomes a program.
    Compile {
        /// The value of `--target`.
        target: TargetWord,
        /// The value of `--level`.
        level: LevelWord,
        /// The value of `--cells`: how many cells the program may use, at most `MAX_CELLS`.
        cells: u32,
    },
    /// `run`: a program is executed on vectors.
    Run {
        /// The value of `--fill`.
        fill: FillWord,
    },
    /// `list`: a program becomes a listing.
    List,
    /// `explain`: a program becomes an account of when each cell is used.
    Explain {
        /// Whether `--tree` stands there.
        tree: bool,
    },
    /// `prove`: a program is compared with a netlist on all vectors.
    Prove,
    /// `asm`: assembly becomes a program.
    Asm,
    /// `debug`: a program is executed step by step, as the lines of the input ask.
    Debug {
        /// The value of `--fill`.
        fill: FillWord,
    },
    /// `convert`: a program is written in another form, or in its own.
    Convert {
        /// The value of `--form`.
        form: FormWord,
    },
    /// `imply`: a netlist becomes a program for the machine of `false` and `imp`.
    Imply {
        /// The value of `--cells`: how many cells the program may use, at most `MAX_CELLS`.
        cells: u32,
    },
    /// `implyrun`: a program of `false` and `imp` is executed on vectors.
    Implyrun {
        /// The value of `--fill`.
        fill: FillWord,
    },
    /// `share`: the programs of a file are laid into one row, as the turns of the input say.
    Share {
        /// The value of `--cells`: how many cells the program may use, at most `MAX_CELLS`.
        cells: u32,
    },
    /// `bench`: programs of an adder are executed on random rows.
    Bench {
        /// How many bits each number has, from 1 to 64.
        bits: u32,
    },
}
