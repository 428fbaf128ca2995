ghost use Rattle.std.specs.Prelude.{◌≡◌, ◌≢◌, ◌<◌, ◌↔◌, ℕ, length, slice_index_or, Some, Any, IfOk, IfNone, IfSome, IsTrue};
ghost use Rattle.net_model.specs.Network.{HasConfiguration, IsBorderRouter};
ghost use Rattle.ospf_routes.specs.Lists.{Exactly};
ghost use Rattle.ospf_routes.specs.steps.AreaReach.{IsThisBorder, area_reach};
ghost use Rattle.ospf_routes.specs.steps.Areas.{AreAreas, AreListeners, HasArea, IsArea, IsAreaAt, IsListenerAt, IsReach};

use crate::OutOfMemory;
use crate::areas::{AreaWalks, is_border, listens_to, place_of};
use net_model::{Config, Net};
use route_tables::push_option;
use std::alloc::Global;
use std::marker::Model;
use walk_core::LeastWalks;

/// A network and its areas, each with its least walks, its routers and its border routers.
#[derive(Debug, Drop)]
pub(crate) struct Domain<'a> {
    net: &'a Net,
    areas: Vec<AreaWalks>,
}

impl<'a> Model for Domain<'a> {
    ghost use Rattle.ospf_routes.specs.steps.Areas.{AreAreas};
    ghost use Rattle.ospf_routes.specs.steps.Domain.{OspfDomain};

    ghost Value = { OspfDomain };

    ghost view = { λ x. record { net = x.net.now; areas = x.areas.items } };

    ghost invariant = { λ x. AreAreas x.net.now x.areas.items };
}

impl<'a> Domain<'a> {
    /// The network with its areas.
    pub fn new(net: &'a Net, areas: Vec<AreaWalks>) -> Domain<'a>
        requires { AreAreas net.now areas.items }
        ensures { result.net ≡ net.now }
    {
        Domain { net, areas }
    }

    /// The network.
    pub fn net(&self) -> &Net
        ensures is { result.now ≡ self.now.net }
        ensures known { AreAreas self.now.net self.now.areas }
    {
        self.net
    }

    /// Its areas.
    fn areas(&self) -> &[AreaWalks]
        ensures is { result.now ≡ self.now.areas }
        ensures known { AreAreas self.now.net self.now.areas }
    {
        self.areas.as_slice()
    }

    /// How many routers there are.
    pub fn routers(&self) -> u32
        ensures count { result ≡ length self.now.net }
        ensures known { AreAreas self.now.net self.now.areas }
    {
        self.net().routers()
    }

    /// The configuration of a router.
    pub fn config(&self, router: u32) -> &Config
        requires { router < length self.now.net }
        ensures router { HasConfiguration self.now.net router result.now }
        ensures known { AreAreas self.now.net self.now.areas }
    {
        self.net().config(router)
    }

    /// Whether a router is a border router.
    pub fn is_border(&self, router: u32) -> bool
        requires { router < length self.now.net }
        ensures { IsTrue result ↔ IsBorderRouter self.now.net router }
    {
        is_border(self.net(), router)
    }

    /// The place of the area of this number.
    pub fn place_of(&self, number: u32) -> Option<usize>
        ensures none { IfNone result (HasArea self.now.areas number → ⊥) }
        ensures some { IfSome result (IsAreaAt self.now.areas number) }
    {
        place_of(self.areas(), number)
    }

    /// How many areas there are.
    pub fn zones(&self) -> usize
        ensures count { result ≡ length self.now.areas }
        ensures known { AreAreas self.now.net self.now.areas }
    {
        self.areas().len()
    }

    /// Whether an area has border routers.
    pub fn has_borders(&self) -> bool
        ensures { IsTrue result ↔ Any (λ area. length area.borders ≢ 0) self.now.areas }
    {
        self.areas()
            .iter()
            .any(|area| !area.borders.as_slice().is_empty())
    }

    /// The area at this place.
    pub fn area(&self, zone: usize) -> &AreaWalks
        requires { zone < length self.now.areas }
        ensures is { result.now ≡ slice_index_or self.now.areas zone result.now }
        ensures area { IsArea self.now.net result.now }
        ensures known { AreAreas self.now.net self.now.areas }
    {
        &self.areas()[zone]
    }

    /// The least walks from a router in the area at this place.
    pub fn walks(&self, zone: usize, u: u32) -> &LeastWalks
        requires router { u < length self.now.net }
        requires zone { zone < length self.now.areas }
        ensures same { area_reach self.now.areas u zone ≡ result.now }
        ensures reach { (n : ℕ) → IsAreaAt self.now.areas n zone → IsReach self.now.net n u result.now }
        ensures known { AreAreas self.now.net self.now.areas }
    {
        self.area(zone).walks.from_router(u)
    }

    /// The least walks from a router in the area of this number.
    pub fn reach(&self, number: u32, u: u32) -> Option<&LeastWalks>
        requires router { u < length self.now.net }
        ensures none { IfNone result (HasArea self.now.areas number → ⊥) }
        ensures some { IfSome result (λ walks. IsReach self.now.net number u walks.now) }
        ensures known { AreAreas self.now.net self.now.areas }
    {
        match place_of(self.areas(), number) {
            Some(zone) => Some(self.walks(zone, u)),
            None => None,
        }
    }

    /// The border routers (RFC 2328, section 3.3).
    pub fn borders(&self, alloc: Global) -> Result<Vec<u32>, OutOfMemory>
        ensures { IfOk result (λ borders. Exactly (IsBorderRouter self.now.net) borders.items) }
    {
        let mut borders = Vec::new(alloc);
        for u in 0..self.routers() {
            push_option(&mut borders, self.border(u))?;
        }
        Ok(borders)
    }

    /// The router, where it is a border router.
    fn border(&self, u: u32) -> Option<u32>
        requires { u < length self.now.net }
        ensures { (v : ℕ) → (result ≡ Some v) ↔ IsThisBorder self.now.net u v }
    {
        if self.is_border(u) { Some(u) } else { None }
    }

    /// The place of the area that each router listens to.
    pub fn listens(&self, alloc: Global) -> Result<Vec<Option<usize>>, OutOfMemory>
        ensures { IfOk result (λ listens. AreListeners self.now.net self.now.areas (length self.now.net) listens.items) }
    {
        let mut listens = Vec::new(alloc);
        for u in 0..self.routers() {
            listens.push(self.listened_place(u))?;
        }
        Ok(listens)
    }

    /// The place of the area that a router listens to.
    fn listened_place(&self, u: u32) -> Option<usize>
        requires router { u < length self.now.net }
        ensures { IsListenerAt self.now.net self.now.areas u result }
    {
        match listens_to(self.net(), u) {
            Some(number) => place_of(self.areas(), number),
            None => None,
        }
    }
}
