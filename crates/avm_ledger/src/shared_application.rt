//! Applications that are shared.

ghost use Rattle.std.specs.Prelude.{◌≡◌, IfOk};
ghost use Rattle.std.specs.Arc.{arc_value};

use crate::application::Application;
use std::alloc::{AllocError, Global};
use std::marker::Model;
use std::sync::Arc;

/// An application, without its global state, that all copies share. Contracts see it as the application.
#[derive(Debug)]
pub struct SharedApplication {
    application: Arc<Application>,
}

/// Written out, so that how one is dropped is proved here once, and not in each crate that owns one.
impl Drop for SharedApplication {
    #[inline]
    fn drop(self) {
        let SharedApplication { application: _ } = self;
    }
}

impl Model for SharedApplication {
    ghost use Rattle.std.specs.Arc.{arc_value};
    ghost use Rattle.avm_ledger.specs.declared.application.Application.{Application as ApplicationRow};

    ghost Value = { ApplicationRow };

    ghost view = { λ s. arc_value s.application };
}

impl SharedApplication {
    /// The application, to be shared.
    pub fn new(alloc: Global, application: Application) -> Result<SharedApplication, AllocError>
        ensures { IfOk result (λ shared. shared ≡ application) }
    {
        let application = Arc::new(alloc, application)?;
        Ok(SharedApplication { application })
    }

    /// The application itself.
    pub fn get(&self) -> &Application
        ensures { result.now ≡ self.now }
    {
        &self.application
    }

    /// The same application. Nothing of it is copied.
    pub fn clone(&self) -> Result<SharedApplication, AllocError>
        ensures { IfOk result (λ copy. copy ≡ self.now) }
    {
        let application = Arc::try_clone(&self.application)?;
        Ok(SharedApplication { application })
    }
}
