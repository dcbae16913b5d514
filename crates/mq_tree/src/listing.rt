// The text that lists a tree.
ghost use Rattle.std.specs.Prelude.{◌≡◌, ◌≤◌, ◌++◌, ℕ, IfOk, List, OnOk, codes, length, slice_range};
ghost use Rattle.mq_tree.specs.ListText.{AreIn, IsIn, entries_in, head_of, item_in, items_of, line_of, list_text, path_of, todo_in};
ghost use Rattle.mq_tree.specs.Volume.{body, slots_of};

use crate::contents::InodeContent;
use crate::slots::Link;
use crate::tree::Tree;
use itoa::Buffer;
use mq_blocks::OutOfMemory;
use std::alloc::Global;

/// A name that is still to be listed, and where the path of its directory stands in the text.
#[derive(Clone, Copy)]
pub struct Step<'a> {
    pub from: usize,
    pub to: usize,
    pub link: Link<'a>,
}

/// Writes the path of a name.
fn put_path(text: &mut Vec<u8>, step: &Step<'_>) -> Result<(), OutOfMemory>
    requires { IsIn text.old.items step.now }
    ensures { OnOk result (text.new.items ≡ text.old.items ++ path_of (item_in text.old.items step.now)) }
{
    text.extend_from_within(step.from..step.to)?;
    text.extend_from_slice(b"/")?;
    text.extend_from_slice(step.link.name)?;
    Ok(())
}

impl Tree {
    /// Writes what stands before the path in the line of an inode.
    fn put_head(&self, text: &mut Vec<u8>, inode: u32) -> Result<(), OutOfMemory>
        ensures { OnOk result (text.new.items ≡ text.old.items ++ head_of (body self.now inode)) }
    {
        match self.content(inode) {
            Some(InodeContent::File(bytes)) => {
                let mut size = Buffer::new();
                text.extend_from_slice(b"f ")?;
                text.extend_from_slice(size.format(bytes.0.len()).as_bytes())?;
                text.extend_from_slice(b" ")?;
            }
            Some(InodeContent::Dir(_)) => text.extend_from_slice(b"d ")?,
            _ => {}
        }
        Ok(())
    }

    /// Puts the names of an inode onto a stack, the first one on top. Its path stands here in the text.
    fn push_links<'a>(
        &'a self,
        alloc: Global,
        inode: u32,
        from: usize,
        to: usize,
        todo: &mut Vec<Step<'a>>,
    ) -> Result<(), OutOfMemory>
        requires { from ≤ to }
        ensures todo { OnOk result ((text : List ℕ)
            → todo_in text todo.new.items ≡ items_of (slice_range text from to)
            (entries_in (slots_of (body self.now inode))) ++ todo_in text todo.old.items) }
        ensures inside { OnOk result ((text : List ℕ)
            → to ≤ length text
            → AreIn text todo.old.items
            → AreIn text todo.new.items) }
    {
        if let Some(InodeContent::Dir(names)) = self.content(inode) {
            let links = names.links(alloc)?;
            for k in 0..links.len() {
                let link = links[links.len() - 1 - k];
                todo.push(Step { from, to, link })?;
            }
        }
        Ok(())
    }

    /// Writes the line of a name, and puts those below it onto the stack.
    fn list_step<'a>(
        &'a self,
        alloc: Global,
        step: &Step<'a>,
        text: &mut Vec<u8>,
        todo: &mut Vec<Step<'a>>,
    ) -> Result<(), OutOfMemory>
        requires step { IsIn text.old.items step.now }
        requires inside { AreIn text.old.items todo.old.items }
        ensures text { OnOk result (text.new.items ≡ text.old.items ++ line_of
            (path_of (item_in text.old.items step.now)) (body self.now step.now.link.inode)) }
        ensures todo { OnOk result (todo_in text.new.items todo.new.items ≡ items_of
            (path_of (item_in text.old.items step.now))
            (entries_in (slots_of
            (body self.now step.now.link.inode))) ++ todo_in text.old.items todo.old.items) }
        ensures inside { OnOk result (AreIn text.new.items todo.new.items) }
    {
        self.put_head(text, step.link.inode)?;
        let from = text.len();
        put_path(text, step)?;
        let to = text.len();
        text.extend_from_slice(b"\n")?;
        self.push_links(alloc, step.link.inode, from, to, todo)?;
        Ok(())
    }

    /// A line for each path, in the order of lists of names: `d PATH` for a directory, `f SIZE PATH` for a
    /// file.
    pub fn list_text(&self, alloc: Global) -> Result<Vec<u8>, OutOfMemory>
        ensures { IfOk result (λ text. text.items ≡ list_text self.now) }
    {
        let mut text = Vec::new(alloc);
        let mut todo = Vec::new(alloc);
        self.put_head(&mut text, 0)?;
        text.extend_from_slice(b"/\n")?;
        self.push_links(alloc, 0, 0, 0, &mut todo)?;
        // One step for each used slot.
        for i in 0..self.count() {
            for k in 0..self.name_count(i) {
                if let Some(step) = todo.pop() {
                    self.list_step(alloc, &step, &mut text, &mut todo)?;
                }
            }
        }
        Ok(text)
    }
}
