//! A graph with its core numbers, and the order that certifies them.
ghost use Rattle.std.specs.Prelude.{◌≡◌, ◌<◌, IfOk, Some, slice_get};
ghost use Rattle.kc_lists.specs.Lists.{place_of};
ghost use Rattle.kc_graph.specs.Certificate.{Certifies, Enumerates};
ghost use Rattle.kc_graph.specs.Lawful.{Ranked, ArePlaces, IsCertified};
ghost use Rattle.kc_graph.specs.Core.{AreCoreNumbers};

use crate::NoMemory;
use crate::graph::Graph;
use std::alloc::Global;
use std::marker::Model;

/// A graph with the core number of each vertex (Seidman 1983) and an order of its vertices that certifies them, a k-order (Zhang, Yu,
/// Zhang and Qin 2017). Every value of the type meets the certificate.
#[derive(Debug, Drop)]
pub struct Lawful {
    graph: Graph,
    core: Vec<u32>,
    order: Vec<u32>,
    places: Vec<u32>,
}

impl Model for Lawful {
    ghost use Rattle.kc_graph.specs.Certificate.{Certifies};
    ghost use Rattle.kc_graph.specs.Lawful.{Ranked, ArePlaces};
    ghost use Rattle.kc_graph.specs.LawfulCode.{code_of_ranked};

    ghost Value = { Ranked };

    ghost coded = { code_of_ranked };

    ghost view = { λ a. record { graph = a.graph; core = a.core.items; order = a.order.items } };

    ghost invariant = { λ a. Certifies a.graph a.core.items a.order.items × ArePlaces a.order.items a.places.items };
}

impl Lawful {
    /// A graph with numbers and an order that certifies them: `core` has the number of each vertex, indexed by the vertex, and `order`
    /// has each vertex once. Where there is no memory for a place a vertex, the three are dropped and the answer is `NoMemory`.
    pub fn new(
        alloc: Global,
        graph: Graph,
        core: Vec<u32>,
        order: Vec<u32>,
    ) -> Result<Lawful, NoMemory>
        requires { Certifies graph core.items order.items }
        ensures { IfOk result (λ lawful. lawful ≡ record { graph = graph; core = core.items; order = order.items }) }
    {
        let places = places_in(alloc, &order, graph.vertices())?;
        Ok(Lawful {
            graph,
            core,
            order,
            places,
        })
    }

    /// The graph, its core numbers and the order that certifies them, each as it was given. It takes no memory.
    pub fn into_parts(self) -> (Graph, Vec<u32>, Vec<u32>)
        ensures graph { result.0 ≡ self.graph }
        ensures core { result.1.items ≡ self.core }
        ensures order { result.2.items ≡ self.order }
        ensures certified { IsCertified self }
    {
        (self.graph, self.core, self.order)
    }

    /// The graph.
    pub fn graph(&self) -> &Graph
        ensures graph { result.now ≡ self.now.graph }
        ensures certified { IsCertified self.now }
    {
        &self.graph
    }

    /// The core number of each vertex, indexed by the vertex.
    pub fn core(&self) -> &[u32]
        ensures core { result.now ≡ self.now.core }
        ensures certified { IsCertified self.now }
        ensures seidman { AreCoreNumbers self.now.graph result.now }
    {
        &self.core
    }

    /// The vertices in the order that certifies the core numbers: these never fall along it, and each vertex has at most as many later
    /// neighbours as its core number.
    pub fn order(&self) -> &[u32]
        ensures order { result.now ≡ self.now.order }
        ensures certified { IsCertified self.now }
    {
        &self.order
    }

    /// Where a vertex stands in the order: how many stand before it. It is looked up, not searched for.
    pub fn place(&self, v: u32) -> u32
        requires { v < self.now.graph.size }
        ensures place { result ≡ place_of v self.now.order }
        ensures vertex { slice_get self.now.order result ≡ Some v }
    {
        self.places[v as usize]
    }
}

/// The place of each number below `n` in a list that has each of them once.
fn places_in(alloc: Global, order: &[u32], n: u32) -> Result<Vec<u32>, NoMemory>
    requires { Enumerates n order.now }
    ensures { IfOk result (λ places. ArePlaces order.now places.items) }
{
    let mut places = vec![in alloc; 0u32; n as usize]?;
    for (place, v) in order.iter().enumerate() {
        places[*v as usize] = place as u32;
    }
    Ok(places)
}
