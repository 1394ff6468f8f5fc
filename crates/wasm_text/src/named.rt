// A module as its text writes it, with identifiers where they stand (Text Format, Modules).
//
// An index is a number or an identifier. A use of a type is as it is written. Abbreviations are written out: an inline export,
// import, element list or data string is an entry of its own. Folded instructions stand after their operands, and the sequences
// inside an instruction are numbered, as in a module. A label's identifier is told where it stands: as the number of the
// innermost open block of that name, where there is one.
use wasm_ast::{FuncType, GlobalType, Instr, Limits, List, Space, TableType, Text, ValType};

/// An index as it is written (Text Format, Modules: Indices).
#[derive(Clone, Copy, Debug, PartialEq, Eq)]
pub enum Idx {
    /// A number.
    Numbered(u32),
    /// An identifier.
    Called(Id),
}

/// An identifier: the places in the source between which it stands (Text Format, Values: Identifiers).
#[derive(Clone, Copy, Debug, PartialEq, Eq)]
pub struct Id {
    /// The place of its first character, `$`.
    pub start: u32,
    /// The place after its last.
    pub end: u32,
}

/// A param or a local, with its identifier where it has one.
#[derive(Clone, Copy, Debug, PartialEq, Eq)]
pub struct Local {
    /// Its identifier.
    pub id: Option<Id>,
    /// Its type.
    pub kind: ValType,
}

/// A use of a type as it is written (Text Format, Modules: Type Uses).
#[derive(Drop)]
pub struct Use {
    /// Whether it is a block's; such a use may be of no type, or of one result.
    pub of_block: bool,
    /// The type that it names.
    pub ty: Option<Idx>,
    /// The params that it writes.
    pub params: List<Local>,
    /// The results that it writes.
    pub results: List<ValType>,
    /// The place of its first token.
    pub at: u32,
}

/// An instruction with one index (Text Format, Instructions).
#[derive(Clone, Copy, Debug, PartialEq, Eq)]
pub enum OneIndex {
    Br,
    BrIf,
    Call,
    RefFunc,
    LocalGet,
    LocalSet,
    LocalTee,
    GlobalGet,
    GlobalSet,
    TableGet,
    TableSet,
    TableGrow,
    TableSize,
    TableFill,
    ElemDrop,
    MemoryInit,
    DataDrop,
}

/// An instruction as it is written. A use of a type is named by its number among all uses of the text, and a sequence by its number
/// in the expression.
#[derive(Drop)]
pub enum Written {
    /// One without an index.
    Plain(Instr),
    /// One with one index.
    One(OneIndex, Idx),
    /// `br_table`.
    BrTable { labels: List<Idx>, last: Idx },
    /// `call_indirect`.
    CallIndirect { table: Idx, ty: u32 },
    /// `table.init`.
    TableInit { table: Idx, elem: Idx },
    /// `table.copy`.
    TableCopy { to: Idx, from: Idx },
    /// `block`.
    Block { ty: u32, body: u32 },
    /// `loop`.
    Loop { ty: u32, body: u32 },
    /// `if`.
    If { ty: u32, then: u32, other: u32 },
}

/// An expression: its sequences, the outermost first.
#[derive(Drop)]
pub struct WrittenExpr {
    /// The sequences by their numbers.
    pub seqs: List<List<Written>>,
}

/// What an import asks for.
#[derive(Clone, Copy, Debug, PartialEq, Eq)]
pub enum WrittenKind {
    /// A function, by the number of its use of a type.
    Func(u32),
    /// A table.
    Table(TableType),
    /// A memory.
    Memory(Limits),
    /// A global.
    Global(GlobalType),
}

/// An import.
#[derive(Drop)]
pub struct WrittenImport {
    /// The name of the module that is asked.
    pub module: Text,
    /// The name of what is asked for.
    pub name: Text,
    /// What it is.
    pub kind: WrittenKind,
}

/// A function, by the number of its use of a type, with its locals and its body.
#[derive(Drop)]
pub struct WrittenFunc {
    /// The number of its use of a type.
    pub ty: u32,
    /// Its locals, params aside.
    pub locals: List<Local>,
    /// What it runs.
    pub body: WrittenExpr,
}

/// A global.
#[derive(Drop)]
pub struct WrittenGlobal {
    /// Its type.
    pub ty: GlobalType,
    /// The expression that gives its first value.
    pub init: WrittenExpr,
}

/// An export.
#[derive(Drop)]
pub struct WrittenExport {
    /// The name by which it is known outside.
    pub name: Text,
    /// What it is.
    pub space: Space,
    /// Its index among these.
    pub index: Idx,
}

/// A start: the function, and the place of the field's parenthesis.
#[derive(Clone, Copy, Debug, PartialEq, Eq)]
pub struct WrittenStart {
    /// The function.
    pub func: Idx,
    /// The place.
    pub at: u32,
}

/// When a segment is used.
#[derive(Drop)]
pub enum WrittenMode {
    /// By instructions alone.
    Passive,
    /// Never.
    Declared,
    /// When the module starts.
    Active { index: Idx, offset: WrittenExpr },
}

/// An element segment.
#[derive(Drop)]
pub struct WrittenElem {
    /// The type of its references.
    pub kind: ValType,
    /// An expression for each.
    pub items: List<WrittenExpr>,
    /// When it is used.
    pub mode: WrittenMode,
}

/// A data segment.
#[derive(Drop)]
pub struct WrittenData {
    /// Its bytes.
    pub bytes: List<u8>,
    /// When it is used.
    pub mode: WrittenMode,
}

/// The identifiers of what a module has of each kind, in order, None where something has none. Imports stand before all
/// definitions in the text, so the order of the text is that of the indices.
#[derive(Drop)]
pub struct Names {
    /// Of the types.
    pub types: List<Option<Id>>,
    /// Of the functions.
    pub funcs: List<Option<Id>>,
    /// Of the tables.
    pub tables: List<Option<Id>>,
    /// Of the memories.
    pub memories: List<Option<Id>>,
    /// Of the globals.
    pub globals: List<Option<Id>>,
    /// Of the element segments.
    pub elems: List<Option<Id>>,
    /// Of the data segments.
    pub segments: List<Option<Id>>,
}

/// A module as it is written.
#[derive(Drop)]
pub struct Named {
    /// The identifiers of its parts.
    pub names: Names,
    /// The function types.
    pub types: List<FuncType>,
    /// The imports.
    pub imports: List<WrittenImport>,
    /// The functions.
    pub funcs: List<WrittenFunc>,
    /// The tables.
    pub tables: List<TableType>,
    /// The memories.
    pub memories: List<Limits>,
    /// The globals.
    pub globals: List<WrittenGlobal>,
    /// The exports.
    pub exports: List<WrittenExport>,
    /// The starts.
    pub starts: List<WrittenStart>,
    /// The element segments.
    pub elems: List<WrittenElem>,
    /// The data segments.
    pub segments: List<WrittenData>,
}
