// The binary format of WebAssembly as a grammar: which bytes spell which module, and the first trouble of bytes that spell
// none. `specs/Modules.antt` has the two statements, `IsBinary` and `BinaryFault`, and the files beside it the forms that
// they stand on. Whatever reads or writes the format is proved against these.
#![tactic(auto)]

pub mod laws;
