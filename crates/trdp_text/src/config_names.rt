//! The words of a fault of the configuration, as the program prints them.

ghost use Rattle.std.specs.Prelude.{◌≡◌, ◌≤◌, length};
ghost use Rattle.trdp_text.specs.ConfigNames.{name_of_config_fault};

use std::fmt;
use trdp_dataset::ConfigFault;

/// The name of a fault of the configuration (profile).
pub fn config_fault_name(fault: ConfigFault) -> &'static str
    ensures name { result.now ≡ name_of_config_fault fault }
    ensures length { length result.now ≤ 11 }
{
    match fault {
        ConfigFault::Toml => "Toml",
        ConfigFault::Missing(_) => "Missing",
        ConfigFault::WrongType(_) => "WrongType",
        ConfigFault::Real => "Real",
        ConfigFault::BadId => "BadId",
        ConfigFault::TwiceId => "TwiceId",
        ConfigFault::NoDataset(_) => "NoDataset",
        ConfigFault::NoCount => "NoCount",
        ConfigFault::TooDeep => "TooDeep",
        ConfigFault::TooBig => "TooBig",
        ConfigFault::TooMany => "TooMany",
        ConfigFault::OutOfMemory => "OutOfMemory",
    }
}

/// A fault of the configuration as the program prints it (profile): `config fault NAME`, and after
/// one space the key of a Missing or WrongType and the dataset of a NoDataset. Printing it
/// allocates nothing.
#[derive(Clone, Copy, Debug)]
pub struct ConfigFaultText(pub ConfigFault);

impl fmt::Display for ConfigFaultText {
    ghost use Rattle.std.specs.Prelude.{Some};
    ghost use Rattle.trdp_text.specs.ConfigNames.{text_of_config_fault};

    ghost output = { λ text. Some (text_of_config_fault text.0) };

    fn fmt<W: fmt::Write>(&self, f: &mut fmt::Formatter<W>) -> fmt::Result {
        let name = config_fault_name(self.0);
        match self.0 {
            ConfigFault::Missing(key) | ConfigFault::WrongType(key) => {
                write!(f, "config fault {name} {key}")
            }
            ConfigFault::NoDataset(id) => write!(f, "config fault {name} {id}"),
            _ => write!(f, "config fault {name}"),
        }
    }
}
