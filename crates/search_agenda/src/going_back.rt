// Going back.
use crate::agenda::{Agenda, Entry, Task};
use crate::items::Item;
use search_base::{SearchStop, get, set};

impl Agenda {
    /// Begins a level.
    pub fn mark(&mut self) -> Result<(), SearchStop> {
        self.marks.push(self.log.len())?;
        Ok(())
    }

    /// Goes back to a level. What was first looked at above it is so no more; what was seen before, and looked at again there, is to be
    /// looked at.
    pub fn back(&mut self, level: usize) -> Result<(), SearchStop> {
        let mark = get(&self.marks, level);
        self.marks.truncate(level);
        let mut again = Vec::new(self.alloc);
        for _ in mark..self.log.len() {
            match self.log.pop() {
                Some(Entry::Seen(item, before)) => {
                    self.forget(item)?;
                    set(&mut self.seen, item.place(), before)?;
                    if before {
                        again.push(item)?;
                    }
                }
                Some(Entry::Noted(n, note)) => self.set_noted(n, note, false)?,
                None => {}
            }
        }
        self.keep_tasks(level)?;
        self.wake_seen(&again)
    }

    /// Leaves out the tasks that came above a level, and those of items that are not seen any more.
    fn keep_tasks(&mut self, level: usize) -> Result<(), SearchStop> {
        let tasks: Vec<Task> = std::mem::replace(&mut self.todo, Vec::new(self.alloc));
        for task in &tasks {
            let is_kept = if task.before {
                self.is_seen(task.item)
            } else {
                task.level as usize <= level
            };
            if is_kept {
                self.todo.push(*task)?;
            } else if task.before {
                set(&mut self.woken, task.item.place(), false)?;
            }
        }
        Ok(())
    }

    fn wake_seen(&mut self, items: &[Item]) -> Result<(), SearchStop> {
        for item in items {
            if self.is_seen(*item) {
                self.wake(*item)?;
            }
        }
        Ok(())
    }
}
