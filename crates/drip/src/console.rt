// Where the program reads and writes: files, standard input, standard output and standard error.
use crate::Failure;
use std::alloc::Global;
use std::fmt::Display;
use std::io::{BufWriter, Printer, Read, Write};
use std::{fs, io};

/// What the program reads from and writes to. Standard output goes through a buffer.
#[derive(Drop)]
pub struct Console<'a> {
    rt: &'a HostRuntime,
    out: BufWriter<Printer<'a, HostRuntime>>,
}

impl<'a> Console<'a> {
    /// The console of this process. Refuses where there is no memory for the buffer.
    pub fn new(rt: &'a HostRuntime) -> io::Result<Console<'a>> {
        let out = BufWriter::new(rt.alloc(), io::writer(rt))?;
        Ok(Console { rt, out })
    }

    /// What files and standard input are opened with.
    pub fn runtime(&self) -> &'a HostRuntime {
        self.rt
    }

    /// What memory is taken from.
    pub fn heap(&self) -> Global {
        self.rt.alloc()
    }

    /// Writes a text.
    pub fn print<T: Display + Drop>(&mut self, text: T) -> io::Result<()> {
        write!(self.out, "{text}")
    }

    /// Writes a line.
    pub fn line<T: Display + Drop>(&mut self, line: T) -> io::Result<()> {
        writeln!(self.out, "{line}")
    }

    /// Writes what is still in the buffer.
    pub fn flush(&mut self) -> io::Result<()> {
        self.out.flush()
    }

    /// Tells what is wrong on standard error, behind what is written so far.
    pub fn complain<T: Display + Drop>(&mut self, wrong: T) -> Failure {
        match self.tell(wrong) {
            Ok(()) => Failure::Told,
            Err(e) => Failure::Io(e),
        }
    }

    /// Writes why there is nothing to show, as an answer and not as an error.
    pub fn give_up<T: Display + Drop>(&mut self, why: T) -> Failure {
        match self.line(why) {
            Ok(()) => Failure::Told,
            Err(e) => Failure::Io(e),
        }
    }

    // Tells what is wrong, behind what is written so far.
    fn tell<T: Display + Drop>(&mut self, wrong: T) -> io::Result<()> {
        self.flush()?;
        self.rt.eprintln(wrong)
    }

    /// All bytes of a file, or of standard input if its name is `-`.
    pub fn read(&self, file: &str) -> io::Result<Vec<u8>> {
        if file != "-" {
            return fs::read(self.rt, file);
        }
        let mut bytes = Vec::new(self.heap());
        self.rt.stdin().read_to_end(&mut bytes)?;
        Ok(bytes)
    }
}
