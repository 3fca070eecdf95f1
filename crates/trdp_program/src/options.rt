//! What a service is asked for, other than its configuration.

ghost use Rattle.std.specs.Prelude.{◌≡◌};
ghost use Rattle.trdp_program.specs.Serving.{lease_of};

/// What a service is asked for, other than its configuration (profile). By default its lines come
/// over UDP, and no slot is reset by itself.
#[derive(Clone, Copy, Debug, Default)]
pub struct ServiceOptions<'a> {
    /// The folder of the control sockets, each of which is a file with the port's number as its
    /// name; None if the control ports are UDP ports.
    pub folder: Option<&'a str>,
    /// The lease: a slot is reset after that many seconds in which its application said nothing;
    /// None if it never is.
    pub lease: Option<u32>,
}

impl<'a> ServiceOptions<'a> {
    /// The lease in microseconds; None if there is none.
    pub(crate) fn lease_time(&self) -> Option<u64>
        ensures { result ≡ lease_of self.now.lease }
    {
        self.lease.map(|seconds| u64::from(seconds) * 1_000_000)
    }
}
