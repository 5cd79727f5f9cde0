//! What is known of an outgoing message before it has its headers.
ghost use Rattle.std.specs.Prelude.{◌≡◌, IfOk};

use nb_base::{Copied, Moment, NoMemory, Target, Text};

/// A saga, by its type and its id.
#[derive(Debug, Drop)]
pub struct SagaName {
    /// The saga's type.
    pub saga: Text,
    pub id: Text,
}

impl Copied for SagaName {
    fn copy(&self) -> Result<SagaName, NoMemory> {
        let saga = self.saga.copy()?;
        let id = self.id.copy()?;
        Ok(SagaName { saga, id })
    }
}

/// An outgoing message without its headers.
#[derive(Debug, Drop)]
pub struct Made {
    pub id: Text,
    pub target: Target,
    /// The message's type.
    pub name: Text,
    pub body: Text,
    /// The endpoint that sends it.
    pub endpoint: Text,
    /// When it is sent.
    pub moment: Moment,
    /// The saga that sends it.
    pub saga: Option<SagaName>,
}

fn copy_saga(saga: &Option<SagaName>) -> Result<Option<SagaName>, NoMemory>
    ensures { IfOk result (λ x. x ≡ saga.now) }
{
    match saga {
        Some(name) => Ok(Some(name.copy()?)),
        None => Ok(None),
    }
}

impl Copied for Made {
    fn copy(&self) -> Result<Made, NoMemory> {
        let id = self.id.copy()?;
        let target = self.target.copy()?;
        let name = self.name.copy()?;
        let body = self.body.copy()?;
        let endpoint = self.endpoint.copy()?;
        let saga = copy_saga(&self.saga)?;
        Ok(Made {
            id,
            target,
            name,
            body,
            endpoint,
            moment: self.moment,
            saga,
        })
    }
}
