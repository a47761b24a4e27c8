//! Worked cases of the program.

mod command_lines;
mod failing_streams;
mod file_runs;
mod lookup_faults;
mod option_texts;
mod response_files;
mod runs;
mod sample_files;
mod streams;
mod word_answers;
