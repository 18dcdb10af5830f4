ghost use Rattle.std.specs.Prelude.{None};

use crate::attached::write_to;
use crate::fault::{Fault, Part};
use crate::real_line::risen;
use nb_record::{Failed, Line, Target};
use std::io;

/// A line whose output is printed to standard output, and that has no input. It counts each error of the system, keeps the
/// last for who asks, and tells nothing of content.
#[derive(Drop)]
pub struct Printer<'r, R: Print> {
    rt: &'r R,
    fault: Option<Fault>,
    write_faults: u64,
}

impl<'r, R: Print> Printer<'r, R> {
    /// A line of which nothing was printed yet.
    pub fn new(rt: &'r R) -> Printer<'r, R> {
        Printer {
            rt,
            fault: None,
            write_faults: 0,
        }
    }

    /// The last fault.
    pub fn fault(&self) -> Option<Fault> {
        self.fault
    }
}

impl<R: Print> Line for Printer<'_, R> {
    ghost outside = { λ l. record { left = None; taken = None; reads = None; attach_faults = 0; read_faults = 0; write_faults = l.write_faults } };

    fn attach(&mut self, _target: &Target<'_>) -> Result<(), Failed> {
        Ok(())
    }

    fn read(&mut self, _buf: &mut [u8]) -> Result<usize, Failed> {
        Ok(0)
    }

    fn write(&mut self, buf: &[u8]) -> Result<usize, Failed> {
        match write_to(Part::Printed, &mut io::writer(self.rt), buf) {
            Ok(n) => Ok(n),
            Err(fault) => {
                self.fault = Some(fault);
                self.write_faults = risen(self.write_faults);
                Err(Failed)
            }
        }
    }
}
