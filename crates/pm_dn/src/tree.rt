//! The tree of managed objects.
ghost use Rattle.std.specs.Prelude.{◌≡◌, ◌<◌, ◌≤◌, ◌+◌, ◌==◌, ◌++◌, ℕ, [], ◌∷◌, length, IfSome, IfOk, IfErr, OnOk, OnErr, Some, None, slice_index_or};
ghost use Rattle.std.specs.List.{list_any};
ghost use Rattle.pm_dn.specs.Refusal.{name_refusal};
ghost use Rattle.pm_dn.specs.Containment.{class_of};
ghost use Rattle.pm_dn.specs.Tree.{add_refusal, rule_of, IsTree, StandsAt, FindsObject, stands, is_root, subtree_of, objects_of};

use crate::containment::{class_of, has_path_to, is_under, superior};
use crate::error::TreeError;
use crate::object::Object;
use crate::places::{PLACES, Places, hash_of};
use crate::refusal::name_refusal;
use pm_base::{Class, Text};
use std::alloc::{AllocError, Global};
use std::marker::Model;

/// The most objects of a tree.
pub const MAX_OBJECTS: usize = 256;

/// The objects of an inventory, seen by contracts as the list of their names' texts in the order in which they were added.
/// An object's number is its place in that list, less than `len`.
#[derive(Drop)]
pub struct Tree {
    alloc: Global,
    objects: Vec<Object>,
    places: Places,
}

impl Model for Tree {
    ghost use Rattle.std.specs.Prelude.{ℕ, List, map};
    ghost use Rattle.pm_dn.specs.Tree.{IsTree};
    ghost use Rattle.pm_dn.specs.declared.object.Object.{Object};

    ghost Value = { List (List ℕ) };

    ghost view = { λ t. map (λ (o : Object). o.text) t.objects.items };

    ghost invariant = { λ t. IsTree (map (λ (o : Object). o.text) t.objects.items) };
}

impl Tree {
    /// The tree without objects. It takes no memory.
    pub fn new(alloc: Global) -> Tree
        ensures { result ≡ [] }
    {
        Tree {
            alloc,
            objects: Vec::new(alloc),
            places: Places::new(alloc),
        }
    }

    /// How many objects stand.
    pub fn len(&self) -> u16
        ensures value { result ≡ length self.now }
        ensures most { result ≤ MAX_OBJECTS }
        ensures let_in { IsTree self.now }
    {
        self.objects.len() as u16
    }

    /// Whether no object stands.
    pub fn is_empty(&self) -> bool
        ensures { result ≡ (length self.now == 0) }
    {
        self.objects.is_empty()
    }

    /// The text of an object's name.
    pub fn text(&self, object: u16) -> &[u8]
        requires { object < length self.now }
        ensures value { result.now ≡ slice_index_or self.now object [] }
        ensures named { name_refusal result.now ≡ None }
    {
        self.objects[object as usize].text.as_bytes()
    }

    /// An object's class.
    pub fn class(&self, object: u16) -> Class
        requires { object < length self.now }
        ensures { class_of (slice_index_or self.now object []) ≡ Some result }
    {
        self.objects[object as usize].class
    }

    /// The number of the object of this name.
    pub fn find(&self, name: &[u8]) -> Option<u16>
        ensures found { FindsObject self.now name.now result }
        ensures alone { IfSome result (λ object. (other : ℕ) → StandsAt self.now name.now other → other ≡ object) }
    {
        match self.guess(name) {
            Some(object) => Some(object),
            None => self.search(name),
        }
    }

    // By the table, of whose content nothing is known.
    #[inline]
    fn guess(&self, name: &[u8]) -> Option<u16>
        ensures found { IfSome result (λ object. StandsAt self.now name.now object) }
        ensures let_in { IsTree self.now }
    {
        let hash = hash_of(name);
        for step in 0..PLACES as u64 {
            let object = self.places.number_at(hash, step)?;
            if self.objects.get(object as usize)?.text.as_bytes() == name {
                return Some(object);
            }
        }
        None
    }

    // One after the other.
    #[cold]
    fn search(&self, name: &[u8]) -> Option<u16>
        ensures { FindsObject self.now name.now result }
    {
        for object in 0..self.len() {
            if self.text(object) == name {
                return Some(object);
            }
        }
        None
    }

    fn stands(&self, name: &[u8]) -> bool
        ensures { result ≡ stands self.now name.now }
    {
        self.find(name).is_some()
    }

    // The first object of a tree is its root.
    fn has_root(&self) -> bool
        ensures { result ≡ list_any is_root self.now }
    {
        self.len() > 0
    }

    // The first rule that speaks against a further object, or else its class.
    fn admit(&self, name: &[u8]) -> Result<Class, TreeError>
        ensures let_in { IfOk result (λ class. (add_refusal self.now name.now ≡ None) × (class_of name.now ≡ Some class)) }
        ensures refused { IfErr result (λ code. add_refusal self.now name.now ≡ Some code) }
    {
        if let Some(code) = name_refusal(name) {
            return Err(TreeError::from(code));
        }
        let Some(class) = class_of(name) else {
            return Err(TreeError::N6);
        };
        if self.stands(name) {
            return Err(TreeError::N8);
        }
        if has_path_to(Class::ManagedElement, name) {
            if self.has_root() {
                return Err(TreeError::N10);
            }
        } else if !self.stands(superior(name)) {
            return Err(TreeError::N7);
        }
        if self.objects.len() >= MAX_OBJECTS {
            return Err(TreeError::N9);
        }
        Ok(class)
    }

    /// Adds the object of this name, and answers its number.
    pub fn add(&mut self, name: &[u8]) -> Result<u16, TreeError>
        ensures number { IfOk result (λ object. object ≡ length self.old) }
        ensures added { OnOk result (self.new ≡ self.old ++ name.now ∷ []) }
        ensures let_in { OnOk result (add_refusal self.old name.now ≡ None) }
        ensures stays { OnErr result (self.new ≡ self.old) }

        // The first rule broken. Out of memory comes only where none is.
        ensures refused { IfErr result (λ code. add_refusal self.old name.now ≡ rule_of code) }
    {
        let class = self.admit(name)?;
        let object = self.objects.len() as u16;
        let Ok(text) = Text::from_slice(self.alloc, name) else {
            return Err(TreeError::Memory);
        };
        let Ok(()) = self.places.prepare(self.alloc) else {
            return Err(TreeError::Memory);
        };
        let Ok(()) = self.objects.push(Object { text, class }) else {
            return Err(TreeError::Memory);
        };
        self.places.note(hash_of(name), object);
        Ok(object)
    }

    /// The numbers of an object and of all below it, in tree order: those whose names begin with the parts of its name.
    pub fn subtree(&self, alloc: Global, root: u16) -> Result<Vec<u16>, AllocError>
        requires { root < length self.now }
        ensures { IfOk result (λ objects. objects.items ≡ subtree_of self.now root) }
    {
        let top = self.text(root);
        let mut objects = Vec::new(alloc);
        for object in 0..self.len() {
            if is_under(top, self.text(object)) {
                objects.push(object)?;
            }
        }
        Ok(objects)
    }

    /// The numbers of the objects of a class, in tree order.
    pub fn of_class(&self, alloc: Global, class: Class) -> Result<Vec<u16>, AllocError>
        ensures { IfOk result (λ objects. objects.items ≡ objects_of self.now class) }
    {
        let mut objects = Vec::new(alloc);
        for object in 0..self.len() {
            if self.class(object) == class {
                objects.push(object)?;
            }
        }
        Ok(objects)
    }
}
