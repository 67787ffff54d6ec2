//! Which function of the host an imported function is.

ghost use Rattle.std.specs.Prelude.{◌≡◌, slice_get};
ghost use Rattle.std.specs.Option.{option_map};
ghost use Rattle.std.specs.List.{filter_map};
ghost use Rattle.qw_module.specs.Start.{host_of};
ghost use Rattle.qw_machine.specs.Inner.Hosts.{callee_of};

use qw_module::module::Import;

/// A function of the host's.
#[derive(Clone, Copy, PartialEq, Eq)]
pub(crate) enum Host {
    Raise,
    Pages,
}

/// The function of the host's that the imported function of an index is linked to.
pub(crate) fn linked_host(imports: &[Import], index: usize) -> Option<Host>
    ensures { option_map callee_of result ≡ slice_get (filter_map host_of imports.now) index }
{
    let mut before = index;
    for import in imports {
        let host = match import {
            Import::Memory(_) => continue,
            Import::Raise(_) => Host::Raise,
            Import::Pages(_) => Host::Pages,
        };
        if before == 0 {
            return Some(host);
        }
        before -= 1;
    }
    None
}
