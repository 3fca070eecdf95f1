//! The folder of the paths.

ghost use Rattle.std.specs.Prelude.{◌≡◌, [], ◌∷◌, IfOk, IfSome};
ghost use Rattle.trdp_wire.specs.Sockets.{fault_of_result};
ghost use Rattle.trdp_base.specs.Reported.{TellsMore};
ghost use Rattle.trdp_controls.specs.Folders.{ListensAt};
ghost use Rattle.trdp_controls.specs.Paths.{path_of};

use crate::listen_fault::ListenFault;
use mio::Registry;
use trdp_lines::Connections;

/// A folder in which the paths of a node are: files that have a number as their name (profile). It
/// may report what was asked of it.
pub trait Folder<C: Connections> {
    ghost use Rattle.std.specs.Prelude.{ℕ, List, Option};
    ghost use Rattle.trdp_controls.specs.Folders.{Listening};

    /// What was asked of it, in order, with the answers; None if this folder reports nothing.
    ghost listenings: { Self → Option (List Listening) };

    /// The path of the folder.
    ghost path: { Self → List ℕ };

    /// The path of the file at which connections come in.
    ghost file_of: { C → List ℕ };

    /// From now on the system reports to this registry, if there is one, what comes at the files
    /// at which a process begins to listen.
    fn report_to(&mut self, registry: Option<Registry>)
        ensures asks_nothing { listenings self.new ≡ listenings self.old }
        ensures stays { path self.new ≡ path self.old };

    /// Listens at the file of that number, and returns the connections there; none has come yet.
    /// The system reports them under the number of the socket that the port would have.
    ///
    /// # Errors
    /// [`ListenFault`] if the system refuses the file, or memory runs out.
    fn listen(&mut self, number: u16, socket: usize) -> Result<C, ListenFault>
        ensures told { TellsMore (listenings self.old) (listenings self.new)
            (ListensAt number (fault_of_result result) ∷ []) }
        ensures number { IfOk result (λ connections. C.file_number connections ≡ number) }
        ensures file { IfOk result (λ connections.
            file_of connections ≡ path_of (path self.old) number) }
        ensures stays { path self.new ≡ path self.old }
        ensures none_came { IfOk result (λ connections.
            IfSome (C.calls connections) (λ calls. calls ≡ [])) };
}
