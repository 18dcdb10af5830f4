//! Laws of names, each a function that does nothing.

ghost use Rattle.nb_uri.specs.IscsiNames.{NamesAreSpelled};
ghost use Rattle.nb_uri.specs.Resolutions.{HostsAreShort};

/// The text of an iSCSI name is read in one way only: what it means is what the grammar says of it (RFC 4173,
/// section 5).
pub fn iscsi_names_are_spelled()
    ensures { NamesAreSpelled }
{}

/// The name of a file's HTTP server is no longer than a URI may be.
pub fn hosts_are_short()
    ensures { HostsAreShort }
{}
