use std::alloc::{AllocError, Global};

/// A number for each vertex from 0 to the order; 0 at first, and 0 for every other vertex.
#[derive(Drop)]
pub struct Numbers {
    items: Vec<u32>,
}

impl Numbers {
    pub(crate) fn new(alloc: Global, order: u32) -> Result<Numbers, AllocError> {
        Ok(Numbers {
            items: vec![in alloc; 0; order as usize + 1]?,
        })
    }

    pub(crate) fn of(&self, vertex: u32) -> u32 {
        self.items.get(vertex as usize).copied().unwrap_or(0)
    }

    pub(crate) fn set(&mut self, vertex: u32, number: u32) {
        if let Some(place) = self.items.get_mut(vertex as usize) {
            *place = number;
        }
    }
}

/// A list for each vertex from 0 to the order; empty at first, and empty for every other vertex.
#[derive(Drop)]
pub struct Lists {
    items: Vec<Vec<u32>>,
}

impl Lists {
    pub(crate) fn new(alloc: Global, order: u32) -> Result<Lists, AllocError> {
        let mut items = Vec::new(alloc);
        for _ in 0..u64::from(order) + 1 {
            items.push(Vec::new(alloc))?;
        }
        Ok(Lists { items })
    }

    pub(crate) fn of(&self, vertex: u32) -> &[u32] {
        match self.items.get(vertex as usize) {
            Some(list) => list.as_slice(),
            None => &[],
        }
    }

    pub(crate) fn push(&mut self, vertex: u32, number: u32) -> Result<(), AllocError> {
        if let Some(list) = self.items.get_mut(vertex as usize) {
            list.push(number)?;
        }
        Ok(())
    }

    pub(crate) fn set(&mut self, vertex: u32, list: Vec<u32>) {
        if let Some(place) = self.items.get_mut(vertex as usize) {
            *place = list;
        }
    }
}
