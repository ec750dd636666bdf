//! The live documents, and the numbers of all that were made.

ghost use Rattle.std.specs.Prelude.{◌≡◌, ◌<◌, ◌≤◌, ◌^◌, IfOk, OnOk, OnErr, IfErr, false, true, nat_eq, map, option_copied, ◌≢◌, length};
ghost use Rattle.std.specs.List.{list_all, IsDistinct};
ghost use Rattle.portal_model.specs.State.{document_of};
ghost use Rattle.portal_model.specs.Valid.{is_made};
ghost use Rattle.portal_model.specs.Documents.{reusable_of, first_of, IsUnused, id_of_document};
ghost use Rattle.document_records.specs.Documents.{no_documents, room, with_document, without_document, without_last, IsLast};
ghost use Rattle.document_records.specs.DocumentErrors.{RefusesDocument};
ghost use Rattle.document_records.specs.DocumentIndex.{live_numbers, AreKept};

use crate::by_path;
use crate::by_path::IdsByPath;
use crate::placed::PlacedDocuments;
use portal_base::limits::Limits;
use portal_base::list::List;
use portal_base::memory::{Replica, WantOfMemory};
use portal_base::names::{DocId, HostPath};
use portal_model::state::Document;
use std::alloc::Global;
use std::collections::BTreeMap;
use std::marker::Model;
use thiserror::Error;

/// Why a document isn't added.
#[derive(Clone, Copy, Debug, PartialEq, Eq, Error)]
pub enum DocError {
    /// As many documents are live, or as many were made, as the limits allow.
    #[error("no room for a document: {live} are live, {made} were made")]
    Full {
        /// How many are live.
        live: u64,
        /// How many were made.
        made: u64,
    },
    /// There was no memory.
    #[error("no memory for a document")]
    Memory,
}

/// The live documents in order of addition, and the numbers of all documents
/// that were made, in the order in which they were.
#[derive(Drop)]
pub struct Documents {
    alloc: Global,
    /// The documents, which are found by their numbers.
    placed: PlacedDocuments,
    /// The numbers of the live documents of each path.
    by_path: IdsByPath,
}

impl Model for Documents {
    ghost use Rattle.document_records.specs.Documents.{DocumentList};
    ghost use Rattle.document_records.specs.DocumentIndex.{AreByPath};

    ghost Value = { DocumentList };

    ghost view = { λ a. a.placed };

    ghost invariant = { λ a. AreByPath a.placed.live a.by_path };
}

impl Documents {
    /// No documents, under limits of which that of made documents is below
    /// 2^32.
    pub fn new(alloc: Global, limits: &Limits) -> Documents
        requires { limits.now.made < 2 ^ 32 }
        ensures { result ≡ no_documents limits.now.documents limits.now.made }
    {
        Documents {
            alloc,
            placed: PlacedDocuments::new(alloc, limits),
            by_path: BTreeMap::new(alloc),
        }
    }

    /// Live documents whose numbers differ, and the numbers that were made,
    /// which theirs are among.
    pub(crate) fn of(
        alloc: Global,
        limits: &Limits,
        live: List<Document>,
        made: &[DocId],
    ) -> Result<Documents, WantOfMemory>
        requires differ { IsDistinct nat_eq (live_numbers live) }
        requires among { list_all (λ d. is_made made.now d.id.number) live ≡ true }
        requires live { length live ≤ limits.now.documents }
        requires made { length made.now ≤ limits.now.made }
        requires limit { limits.now.made < 2 ^ 32 }
        ensures { IfOk result (λ documents. documents ≡ record {
          most_live = limits.now.documents;
          most_made = limits.now.made;
          live = live;
          made = made.now;
        }) }
    {
        let by_path = by_path::ids_by_path(alloc, live.as_slice())?;
        Ok(Documents {
            alloc,
            placed: PlacedDocuments::of(alloc, limits, live, made)?,
            by_path,
        })
    }

    /// How many more documents may be added. No limit is passed, and the
    /// numbers of live documents differ and are among those that were made.
    pub fn room(&self) -> u64
        ensures room { result ≡ room self.now }
        ensures kept { AreKept self.now }
    {
        // A caller can look at the limit before it draws a word: an addition is refused exactly
        // where there is no room.
        self.placed.room()
    }

    /// Adds a document, whose number was never made.
    pub fn add(&mut self, document: Document) -> Result<(), DocError>
        requires { is_made self.old.made document.id.number ≡ false }
        ensures room { OnOk result (room self.old ≢ 0) }
        ensures ok { OnOk result (self.new ≡ with_document self.old document) }
        ensures refused { IfErr result (RefusesDocument self.old) }
        ensures err { OnErr result (self.new ≡ self.old) }
    {
        if self.placed.room() == 0 {
            return Err(DocError::Full {
                live: self.placed.live().len() as u64,
                made: self.placed.made().len() as u64,
            });
        }
        let id = document.id;
        let Ok(path) = document.path.replica(self.alloc) else {
            return Err(DocError::Memory);
        };
        if self.placed.add(document).is_err() {
            return Err(DocError::Memory);
        }
        if by_path::add_id(self.alloc, &mut self.by_path, path, id).is_err() {
            self.placed.take_back(id);
            return Err(DocError::Memory);
        }
        Ok(())
    }

    /// The first number at or above a word, with 0 behind the greatest, that
    /// no made document has.
    pub fn unused_from(&self, word: u32) -> DocId
        ensures { IsUnused self.now.made word result.number }
    {
        self.placed.unused_from(word)
    }

    /// The live documents, in order of addition. Their numbers differ.
    pub fn live(&self) -> &[Document]
        ensures value { result.now ≡ self.now.live }
        ensures kept { AreKept self.now }
    {
        self.placed.live()
    }

    /// The numbers that were made, in the order in which they were.
    pub fn made(&self) -> &[DocId]
        ensures { result.now ≡ self.now.made }
    {
        self.placed.made()
    }

    /// The live document of a number, which is found in about log n steps among n
    /// that were made.
    pub fn find(&self, id: DocId) -> Option<&Document>
        ensures { option_copied result ≡ document_of self.now.live id.number }
    {
        self.placed.find(id)
    }

    /// The first live document that may stand for a new one of this path and
    /// these flags. Only the documents of the path are looked at.
    pub fn reusable(
        &self,
        path: &HostPath,
        persistent: bool,
        strict: bool,
        folder: bool,
    ) -> Option<DocId>
        ensures { result ≡ reusable_of self.now.live path.now persistent strict folder }
    {
        self.placed.known();
        let ids = self.by_path.get(path)?;
        self.placed
            .first_with_flags(ids.as_slice(), persistent, strict, folder)
    }

    /// The first live document of a path, which is found in about log n steps among
    /// the paths of n documents.
    pub fn first_of(&self, path: &HostPath) -> Option<DocId>
        ensures { result ≡ first_of self.now.live path.now }
    {
        self.by_path.get(path)?.first().copied()
    }

    /// Takes the document of a number out, which stays made.
    pub fn remove(&mut self, id: DocId) -> Option<Document>
        ensures document { result ≡ document_of self.old.live id.number }
        ensures rest { self.new ≡ without_document self.old id.number }
    {
        let document = self.placed.remove(id)?;
        by_path::remove_id(&mut self.by_path, &document.path, id);
        Some(document)
    }

    /// The numbers of the live documents, in order of addition.
    pub fn ids(&self) -> Result<List<DocId>, WantOfMemory>
        ensures { IfOk result (λ ids. ids ≡ map id_of_document self.now.live) }
    {
        let mut ids = List::new(self.alloc);
        for document in self.placed.live() {
            ids.push(document.id)?;
        }
        Ok(ids)
    }

    /// Takes the last addition back: the document goes, and its number is no
    /// longer made.
    pub fn take_back(&mut self, id: DocId)
        requires { IsLast self.old id }
        ensures { self.new ≡ without_last self.old }
    {
        if let Some(last) = self.placed.take_back(id) {
            by_path::remove_id(&mut self.by_path, &last.path, id);
        }
    }
}
