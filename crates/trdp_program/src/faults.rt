//! The words of the faults of a script and of a service, as the program prints them.

ghost use Rattle.std.specs.Prelude.{◌≡◌};
ghost use Rattle.trdp_program.specs.Faults.{status_of_script};

use std::fmt;
use trdp_script::ScriptFault;
use trdp_text::line_fault_name;
use trdp_wire::BindFault;

/// A script's fault as the program prints it (profile): `line N fault NAME`, or `read fault`,
/// `write fault` or `memory fault`. Printing it allocates nothing.
#[derive(Clone, Copy, Debug)]
pub struct ScriptFaultText(pub ScriptFault);

impl fmt::Display for ScriptFaultText {
    ghost use Rattle.std.specs.Prelude.{Some};
    ghost use Rattle.trdp_program.specs.Faults.{text_of_script_fault};

    ghost output = { λ text. Some (text_of_script_fault text.0) };

    fn fmt<W: fmt::Write>(&self, f: &mut fmt::Formatter<W>) -> fmt::Result {
        match self.0 {
            ScriptFault::Line(number, fault) => {
                let name = line_fault_name(fault);
                write!(f, "line {number} fault {name}")
            }
            ScriptFault::Read => f.write_str("read fault"),
            ScriptFault::Write => f.write_str("write fault"),
            ScriptFault::OutOfMemory => f.write_str("memory fault"),
        }
    }
}

/// The exit status of a script: 0 at its end, 3 for a bad line, and else 4 (profile).
pub fn script_status(end: Result<(), ScriptFault>) -> u8
    ensures { result ≡ status_of_script end }
{
    match end {
        Ok(()) => 0,
        Err(ScriptFault::Line(..)) => 3,
        Err(ScriptFault::Read | ScriptFault::Write | ScriptFault::OutOfMemory) => 4,
    }
}

/// Why a service ends with a fault. As the program prints it (profile) it is `bind fault`, `write
/// fault` or `memory fault`; printing it allocates nothing.
#[derive(Clone, Copy, Debug, PartialEq, Eq)]
pub enum ServeFault {
    /// The system refuses one of the ports, or a path.
    Bind,
    /// The output can't be written.
    Write,
    /// An allocation fails.
    OutOfMemory,
}

impl From<BindFault> for ServeFault {
    ghost use Rattle.std.specs.Prelude.{◌≡◌};
    ghost use Rattle.trdp_program.specs.Faults.{serve_fault};

    ghost from_gives = { λ fault result. result ≡ serve_fault fault };

    fn from(fault: BindFault) -> ServeFault {
        match fault {
            BindFault::Bind => ServeFault::Bind,
            BindFault::OutOfMemory => ServeFault::OutOfMemory,
        }
    }
}

impl fmt::Display for ServeFault {
    ghost use Rattle.std.specs.Prelude.{Some};
    ghost use Rattle.trdp_program.specs.Faults.{text_of_serve_fault};

    ghost output = { λ fault. Some (text_of_serve_fault fault) };

    fn fmt<W: fmt::Write>(&self, f: &mut fmt::Formatter<W>) -> fmt::Result {
        f.write_str(match self {
            ServeFault::Bind => "bind fault",
            ServeFault::Write => "write fault",
            ServeFault::OutOfMemory => "memory fault",
        })
    }
}
