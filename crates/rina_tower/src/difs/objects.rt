//! CDAP messages to the DIFs of a rank.
ghost use Rattle.std.specs.Prelude.{◌≡◌, true, Err};
ghost use Rattle.rina_dif.specs.declared.cdap.CdapCallError.TheVariants as errors;
ghost use Rattle.rina_dif.specs.Asking.{answer_of};
ghost use Rattle.rina_tower.specs.Cdap.{AsksOne};
ghost use Rattle.rina_tower.specs.Calls.{AreDifs};
ghost use Rattle.rina_tower.specs.MemoryFailure.{have_failed};
ghost use Rattle.rina_tower.specs.Levels.{AtDif};

use super::Difs;
use rina_base::Node;
use rina_dif::CdapCallError;
use std::alloc::Global;

impl Difs {
    /// Gives bytes to the IPC process at a node of a DIF.
    pub fn cdap(
        &mut self,
        alloc: Global,
        fac: u16,
        node: Node,
        bytes: &[u8],
    ) -> Result<Vec<u8>, CdapCallError>
        requires { AreDifs self.old }
        ensures does { AtDif fac (AsksOne node bytes.now (answer_of result)) (answer_of result ≡ Err errors.NoIpc) self.old self.new }
        ensures fails { result ≡ Err errors.Memory → have_failed self.new ≡ true }
    {
        let Some(_dif) = self.get(fac) else {
            return Err(CdapCallError::NoIpc);
        };
        let one = &mut self.items[fac as usize];
        one.cdap(alloc, node, bytes)
    }
}
