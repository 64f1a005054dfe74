ghost use Rattle.std.specs.Prelude.{◌≡◌, Some, None, Err, IfOk, is_some, true};
ghost use Rattle.json.specs.Json.{Json, document};
ghost use Rattle.json.specs.Lex.{tokens};
ghost use Rattle.json_view.specs.Json.{json};
ghost use Rattle.json_view.specs.Trees.{reading};

use crate::limits::is_within;
use crate::node::Node;
use json::{Error, Scratch, Tape};
use std::alloc::Global;

/// Why bytes are not read as JSON.
#[derive(Clone, Copy, Debug, PartialEq, Eq)]
pub enum JsonFault {
    /// They are not UTF-8 or not one JSON text, nest deeper than 127 arrays and objects, or have a
    /// number that no 64-bit float can hold.
    NotJson,
    /// Want of memory, or a text of nearly 4 GiB.
    Memory,
}

/// The memory that reading wants, to be kept from one text to the next: it grows to what the longest
/// text asked for and is not given back before it is dropped.
#[derive(Drop)]
pub struct Buffers {
    scratch: Scratch,
}

impl Buffers {
    /// Buffers for no text yet, which take no memory from the heap.
    pub fn new(alloc: Global) -> Buffers {
        Buffers {
            scratch: Scratch::new(alloc),
        }
    }
}

/// A JSON text that was read. Its texts are borrowed from the bytes, or from the buffers where they
/// had escapes. Contracts see it by `document_value`, as the value that `serde_json` reads.
#[derive(Drop)]
pub struct Document<'a> {
    tape: Tape<'a>,
    ghost begins: { is_some (reading tape) ≡ true },
}

impl<'a> Document<'a> {
    ghost use Rattle.json_view.specs.Views.{document_value, node_value};

    /// The value that bytes are (RFC 8259). Of equal keys in an object the last counts. `NotJson` where they
    /// are no value, nest too deep or have a number that is too large; `Memory` also where they are nearly
    /// 4 GiB.
    pub fn read(
        alloc: Global,
        bytes: &'a [u8],
        buffers: &'a mut Buffers,
    ) -> Result<Document<'a>, JsonFault>
        ensures value { IfOk result (λ d. json bytes.now ≡ Some (document_value d)) }
        ensures not_json { result ≡ Err JsonFault.NotJson → json bytes.now ≡ None }
    {
        let Ok(text) = simdutf8::basic::from_utf8(bytes) else {
            return Err(JsonFault::NotJson);
        };
        match Tape::parse(text, &mut buffers.scratch, Vec::new(alloc)) {
            Ok(tape) if is_within(&tape) => Ok(Document { tape }),
            Ok(_) => Err(JsonFault::NotJson),
            Err(Error::Invalid) => Err(JsonFault::NotJson),
            Err(_) => Err(JsonFault::Memory),
        }
    }

    /// The value itself.
    pub fn root(&self) -> Node<'_, 'a>
        ensures { node_value result ≡ document_value self.now }
    {
        Node::new(&self.tape, 0)
    }
}
