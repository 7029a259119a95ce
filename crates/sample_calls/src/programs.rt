//! Programs by name.

use std::alloc::Global;
use std::test::Fail;
use teal_asm::assemble;
use teal_value::{ByteString, Failure};

/// Programs, each with its name.
#[derive(Drop)]
pub struct Programs {
    all: Vec<Named>,
}

#[derive(Drop)]
struct Named {
    name: String,
    bytes: ByteString,
}

impl Programs {
    /// None.
    pub fn new(alloc: Global) -> Programs {
        Programs {
            all: Vec::new(alloc),
        }
    }

    /// Adds a program, or puts it in place of the one of its name.
    pub fn put(&mut self, alloc: Global, name: &str, bytes: &[u8]) -> Result<(), Fail> {
        let bytes = ByteString::from_slice(alloc, bytes)?;
        for named in self.all.as_mut_slice() {
            if named.name.as_str() == name {
                named.bytes = bytes;
                return Ok(());
            }
        }
        let name = String::from_str(alloc, name)?;
        self.all.push(Named { name, bytes })?;
        Ok(())
    }

    /// The program of a name, or else of hexadecimal digits; `-` is no program.
    pub fn named(&self, alloc: Global, word: &str) -> Result<ByteString, Fail> {
        for named in self.all.as_slice() {
            if named.name.as_str() == word {
                return Ok(named.bytes.clone()?);
            }
        }
        let digits = if word == "-" { "" } else { word };
        Ok(ByteString::from_vec(hex::decode(alloc, digits)?))
    }

    /// Assembles a source, and puts the program under a name. The answer is its bytes, in digits, or the assembler's fault.
    pub fn assemble(&mut self, alloc: Global, name: &str, source: &[u8]) -> Result<String, Fail> {
        let Ok(text) = str::from_utf8(source) else {
            return Err("a source is text".into());
        };
        match assemble(alloc, text) {
            Ok(bytes) => {
                self.put(alloc, name, bytes.as_slice())?;
                Ok(hex::encode(alloc, bytes.as_slice())?)
            }
            Err(Failure::Fault(fault)) => Ok(format!(in alloc; "{fault:?}")?),
            Err(Failure::Memory) => Err("memory is refused".into()),
        }
    }
}
