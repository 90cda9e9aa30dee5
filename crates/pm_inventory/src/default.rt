//! The objects and the measurements of the default inventory.
ghost use Rattle.std.specs.Prelude.{◌≡◌, ◌++◌, ◌∷◌, [], map, IfOk, OnOk};
ghost use Rattle.pm_meas.specs.Def.{def_text};
ghost use Rattle.pm_inventory.specs.Default.{default_objects, default_measures};

use pm_dn::Tree;
use pm_meas::Catalogue;
use std::alloc::{AllocError, Global};

pub(crate) fn default_tree(alloc: Global) -> Result<Tree, AllocError>
    ensures { IfOk result (λ tree. tree ≡ default_objects) }
{
    let mut tree = Tree::new(alloc);
    add_object(&mut tree, b"ManagedElement=ME1")?;
    add_object(&mut tree, b"ManagedElement=ME1,GNBCUCPFunction=1")?;
    add_object(
        &mut tree,
        b"ManagedElement=ME1,GNBCUCPFunction=1,NRCellCU=7",
    )?;
    add_object(
        &mut tree,
        b"ManagedElement=ME1,GNBCUCPFunction=1,NRCellCU=8",
    )?;
    add_object(&mut tree, b"ManagedElement=ME1,GNBDUFunction=1")?;
    add_object(&mut tree, b"ManagedElement=ME1,GNBDUFunction=1,NRCellDU=7")?;
    Ok(tree)
}

pub(crate) fn default_catalogue(alloc: Global) -> Result<Catalogue, AllocError>
    ensures { IfOk result (λ catalogue. map def_text catalogue ≡ default_measures) }
{
    let mut catalogue = Catalogue::new(alloc);
    add_measure(&mut catalogue, b"RRC.ConnEstabAtt.mo-Data NRCellCU CC SUM")?;
    add_measure(
        &mut catalogue,
        b"RRC.ConnEstabAtt.mo-Signalling NRCellCU CC SUM",
    )?;
    add_measure(&mut catalogue, b"RRC.ConnEstabSucc.mo-Data NRCellCU CC SUM")?;
    add_measure(
        &mut catalogue,
        b"RRC.ConnEstabSucc.mo-Signalling NRCellCU CC SUM",
    )?;
    add_measure(&mut catalogue, b"RRC.ConnMean NRCellCU SI MEAN")?;
    add_measure(&mut catalogue, b"RRC.ConnMax NRCellCU SI MAX")?;
    add_measure(&mut catalogue, b"VS.QueueLength NRCellDU GAUGE MEAN")?;
    add_measure(&mut catalogue, b"VS.QueueLow NRCellDU GAUGE MIN")?;
    add_measure(&mut catalogue, b"VS.SetupTime NRCellDU DER MEAN 3")?;
    Ok(catalogue)
}

// The names of the default inventory are let in: nothing but memory can be wanting.
fn add_object(tree: &mut Tree, name: &[u8]) -> Result<(), AllocError>
    ensures { OnOk result (tree.new ≡ tree.old ++ name.now ∷ []) }
{
    match tree.add(name) {
        Ok(_) => Ok(()),
        Err(_) => Err(AllocError),
    }
}

fn add_measure(catalogue: &mut Catalogue, words: &[u8]) -> Result<(), AllocError>
    ensures { OnOk result (map def_text catalogue.new ≡ map def_text catalogue.old ++ words.now ∷ []) }
{
    match catalogue.add(words) {
        Ok(_) => Ok(()),
        Err(_) => Err(AllocError),
    }
}
