//! The catalogue of a node.

ghost use Rattle.std.specs.Prelude.{◌≡◌};
ghost use Rattle.log_model.specs.Log.{reply_done};
ghost use Rattle.catalogue.specs.Catalogue.{system_setting};

use catalogue::Catalogue;
use locked_replica::LogSetting;
use log_model::RequestId;
use schema::Schema;
use std::alloc::{Allocator, Global};
use std::marker::{Model, PhantomData};

/// The catalogue and the window of a node's replicas at first. Contracts see the catalogue; both are the setting of the
/// node's log.
#[derive(Drop)]
pub struct NodeCatalogue<J: LogSetting, P: Allocator + Copy = Global> {
    catalogue: Catalogue<P>,
    window: u32,
    of: PhantomData<J>,
}

impl<J: LogSetting, P: Allocator + Copy> Model for NodeCatalogue<J, P> {
    ghost use Rattle.std.specs.Prelude.{◌≡◌};
    ghost use Rattle.catalogue.specs.Catalogue.{SystemCatalogue, system_setting};
    ghost use Rattle.catalogue.specs.Held.{catalogue_code};

    ghost Value = { SystemCatalogue };

    ghost coded = { catalogue_code };

    ghost view = { λ c. c.catalogue };

    ghost invariant = { λ c. J.setting ≡ system_setting c.catalogue c.window };
}

impl<J: LogSetting, P: Allocator + Copy> NodeCatalogue<J, P> {
    /// Makes a catalogue and a window that are the setting.
    pub fn new(catalogue: Catalogue<P>, window: u32) -> NodeCatalogue<J, P>
        requires { J.setting ≡ system_setting catalogue window }
        ensures { result ≡ catalogue }
    {
        NodeCatalogue {
            catalogue,
            window,
            of: PhantomData,
        }
    }

    /// The catalogue.
    pub fn get(&self) -> &Catalogue<P>
        ensures { result.now ≡ self.now }
    {
        &self.catalogue
    }

    /// The reply of a request that was done before the log.
    pub fn reply(&self, request: Option<RequestId>) -> Option<u64>
        ensures { result ≡ reply_done J.setting.beginning.requests request }
    {
        self.catalogue.requests().reply(request)
    }

    /// The tables of the setting.
    pub fn schema(&self) -> &Schema<P>
        ensures { result.now ≡ J.setting.tables }
    {
        self.catalogue.schema()
    }

    /// The window.
    pub fn window(&self) -> u32
        ensures { J.setting ≡ system_setting self.now result }
    {
        self.window
    }
}
