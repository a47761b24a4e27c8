//! The header of a line program.

use crate::parameters::LineParameters;
use gimli_read::{AttributeValue, Encoding, Reader};
use std::alloc::Global;
use std::marker::Model;

/// A file of a line program.
#[derive(Drop)]
pub struct FileEntry<R: Reader> {
    pub(crate) path_name: AttributeValue<R>,
    pub(crate) directory_index: u64,
}

impl<R: Reader> Model for FileEntry<R> {
    ghost use Rattle.gimli_read.specs.Form.{as_value};
    ghost use Rattle.gimli_line.specs.Header.{File};

    ghost Value = { File };

    ghost view = { λ f. record {
      path_name = as_value R.section f.path_name;
      directory_index = f.directory_index;
    } };
}

/// The header of a line program, with its directories and files.
#[derive(Drop)]
pub struct LineProgramHeader<R: Reader> {
    pub(crate) encoding: Encoding,
    pub(crate) parameters: LineParameters,
    pub(crate) standard_opcode_lengths: R,
    pub(crate) include_directories: Vec<AttributeValue<R>>,
    pub(crate) file_names: Vec<FileEntry<R>>,
    pub(crate) alloc: Global,
}

impl<R: Reader> Model for LineProgramHeader<R> {
    ghost use Rattle.std.specs.Prelude.{map};
    ghost use Rattle.gimli_read.specs.Form.{as_value};
    ghost use Rattle.gimli_line.specs.Header.{Header};

    ghost Value = { Header };

    ghost view = { λ h. record {
      encoding = h.encoding;
      line_encoding = h.parameters.encoding;
      standard_opcode_lengths = R.section h.standard_opcode_lengths;
      include_directories = map (as_value R.section) h.include_directories.items;
      file_names = h.file_names.items;
    } };
}
