// The sites of assignments and arms.

ghost use Rattle.std.specs.Prelude.{◌≡◌, ◌≤◌, ◌<◌, ◌^◌, ◌++◌, IfOk, OnOk};
ghost use Rattle.elab_flat.specs.Bodies.{sites_from, arms_from};

use design_core::flat::{ArmKind, Site, SiteKind};
use sqlite_items::Items;
use std::alloc::{AllocError, Global};
use word_core::Name;

/// The sites of so many assignments, numbered from 1.
fn assignment_sites(alloc: Global, path: &Name, count: u32) -> Result<Items<Site>, AllocError>
    requires { count ≤ 65536 }
    ensures { IfOk result (λ sites. sites ≡ sites_from path.now 1 count) }
{
    let mut sites = Items::new(alloc);
    for k in 0..count {
        sites.push(Site {
            scope: Name::make(alloc, path.bytes())?,
            kind: SiteKind::Assignment,
            ordinal: k + 1,
        })?;
    }
    Ok(sites)
}

/// The site of an arm.
fn arm_site(alloc: Global, path: &Name, arm: ArmKind, ordinal: u32) -> Result<Site, AllocError>
    ensures { IfOk result (λ site. site ≡ record { scope = path.now; kind = SiteKind.Arm arm; ordinal = ordinal }) }
{
    Ok(Site {
        scope: Name::make(alloc, path.bytes())?,
        kind: SiteKind::Arm { arm },
        ordinal,
    })
}

/// Puts the sites of the arms of so many branches, which are numbered from 1, behind the sites.
fn add_arms(
    alloc: Global,
    path: &Name,
    count: u32,
    sites: &mut Items<Site>,
) -> Result<(), AllocError>
    requires { count < 2 ^ 31 }
    ensures { OnOk result (sites.new ≡ sites.old ++ arms_from path.now 1 count) }
{
    for k in 0..count {
        sites.push(arm_site(alloc, path, ArmKind::Then, k + 1)?)?;
        sites.push(arm_site(alloc, path, ArmKind::Else, k + 1)?)?;
    }
    Ok(())
}

/// The sites of so many assignments, and then those of the arms of so many branches.
pub fn sites(
    alloc: Global,
    path: &Name,
    statements: u32,
    branches: u32,
) -> Result<Items<Site>, AllocError>
    requires few_statements { statements ≤ 65536 }
    requires few_branches { branches < 2 ^ 31 }
    ensures { IfOk result (λ sites. sites ≡ sites_from path.now 1 statements ++ arms_from path.now 1 branches) }
{
    let mut sites = assignment_sites(alloc, path, statements)?;
    add_arms(alloc, path, branches, &mut sites)?;
    Ok(sites)
}
